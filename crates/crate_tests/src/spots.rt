//! `block_table`: where messages go, what a table then says of them, and which blocks are left as they go.

use block_table::{Block, BlockTable, Placed, PutFault};
use js_base::Spot;
use std::alloc::Global;
use std::test::Fail;

/// How many bytes each of several messages has.
const LEN: u32 = 1_048_610;

/// The block of a file that is written so far.
fn block(file: u32, end: u32) -> Block {
    Block { file, end }
}

/// Puts a message of so many bytes where the table places it.
fn store(table: &mut BlockTable, seq: u64, len: u32) -> Option<Spot> {
    let mut placing = table.placing();
    let spot = placing.place(table, len)?;
    match table.put(seq, spot) {
        Ok(()) => Some(spot),
        Err(_) => None,
    }
}

/// A table with messages of the sequences from 1 on, if each has a place.
fn filled(alloc: Global, count: u64) -> Option<BlockTable> {
    let mut table = BlockTable::new(alloc);
    for seq in 1..=count {
        store(&mut table, seq, LEN)?;
    }
    Some(table)
}

#[test]
fn eighth_message_begins_a_file(rt: HostRuntime) -> Result<(), Fail> {
    let mut table = filled(rt.alloc(), 7).ok_or("no place")?;
    assert_eq!(rt; table.writing(), Some(block(2, 7_340_270)));
    let spot = Spot {
        file: 3,
        at: 0,
        len: LEN,
    };
    assert_eq!(rt; store(&mut table, 8, LEN), Some(spot));
    assert_eq!(rt; table.writing(), Some(block(3, LEN)));
    assert_eq!(rt; table.older(), [block(2, 7_340_270)].as_slice());
    assert_eq!(rt; table.spot(8), Some(spot));
    assert_eq!(rt; table.at_or_after(8), Some(Placed { seq: 8, spot }));
    assert_eq!(rt; table.at_or_after(9), None);
    Ok(())
}

#[test]
fn block_is_filled_to_its_last_byte(rt: HostRuntime) -> Result<(), Fail> {
    let mut table = filled(rt.alloc(), 7).ok_or("no place")?;
    assert!(rt; store(&mut table, 8, 1_048_338).is_some());
    assert_eq!(rt; table.writing(), Some(block(2, 8_388_608)));
    assert!(rt; store(&mut table, 9, 1).is_some());
    assert_eq!(rt; table.writing(), Some(block(3, 1)));
    Ok(())
}

#[test]
fn blocks_go_with_their_messages(rt: HostRuntime) -> Result<(), Fail> {
    let mut table = filled(rt.alloc(), 20).ok_or("no place")?;
    assert_eq!(rt;
        table.older(),
        [block(2, 7_340_270), block(3, 7_340_270)].as_slice()
    );
    table.remove(8, 13);
    assert!(rt; table.has_block(3));
    table.remove(14, 20);
    assert!(rt; !table.has_block(3));
    assert!(rt; table.has_block(4));
    assert_eq!(rt; table.older(), [block(2, 7_340_270)].as_slice());
    assert_eq!(rt; table.writing(), Some(block(4, 6_291_660)));
    assert!(rt; store(&mut table, 21, 8_000_000).is_some());
    assert_eq!(rt; table.writing(), Some(block(3, 8_000_000)));
    assert!(rt; !table.has_block(4));
    table.clear();
    assert_eq!(rt; table.writing(), None);
    assert!(rt; !table.has_block(2));
    Ok(())
}

#[test]
fn only_what_fits_is_put(rt: HostRuntime) -> Result<(), Fail> {
    let mut table = filled(rt.alloc(), 2).ok_or("no place")?;
    let end = 2 * LEN;
    for (seq, file, at) in [
        (2, 2, end),
        (3, 2, end - 1),
        (3, 2, 0),
        (3, 3, 1),
        (3, 1, 0),
        (3, 65_536, 0),
    ] {
        let spot = Spot { file, at, len: 1 };
        assert_eq!(rt;
            table.put(seq, spot),
            Err(PutFault::Misfit),
            "{seq} {file} {at}"
        );
    }
    assert_eq!(rt; table.writing(), Some(block(2, end)));
    Ok(())
}

#[test]
fn batch_is_placed_before_it_is_put(rt: HostRuntime) -> Result<(), Fail> {
    let mut table = filled(rt.alloc(), 7).ok_or("no place")?;
    let mut placing = table.placing();
    let first = placing.place(&table, LEN);
    placing.restart();
    let second = placing.place(&table, LEN);
    table.remove(1, 7);
    let spots = [(8, 3, first), (1, 4, second)];
    for (seq, file, spot) in spots {
        if seq == 1 {
            table.clear();
        }
        let place = Spot {
            file,
            at: 0,
            len: LEN,
        };
        assert_eq!(rt; spot, Some(place));
        assert_eq!(rt; table.put(seq, place), Ok(()));
    }
    assert_eq!(rt; table.writing(), Some(block(4, LEN)));
    assert_eq!(rt; table.older(), [].as_slice());
    Ok(())
}

#[test]
fn long_block_without_messages_is_left_behind_a_batch(rt: HostRuntime) -> Result<(), Fail> {
    let mut table = filled(rt.alloc(), 8).ok_or("no place")?;
    table.close();
    assert_eq!(rt; table.writing(), Some(block(3, LEN)));
    table.remove(8, 8);
    assert_eq!(rt; table.writing(), Some(block(3, LEN)));
    table.close();
    assert_eq!(rt; table.writing(), None);
    assert!(rt; !table.has_block(3));
    assert_eq!(rt; table.older(), [block(2, 7_340_270)].as_slice());
    assert!(rt; store(&mut table, 9, 1_048_575).is_some());
    assert_eq!(rt; table.writing(), Some(block(3, 1_048_575)));
    table.remove(9, 9);
    table.close();
    assert_eq!(rt; table.writing(), Some(block(3, 1_048_575)));
    assert!(rt; store(&mut table, 10, 1).is_some());
    table.remove(10, 10);
    table.close();
    assert_eq!(rt; table.writing(), None);
    Ok(())
}
