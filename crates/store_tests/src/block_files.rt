//! `stream_store`: how a stream's messages fill the block files of a volume, which of these are cut to nothing, and what is found after each stop of a purge
//! and of a drop.

use crate::store_calls::{
    Counts, Ended, check_images, clear, count_in_image, drop_stream, filled, message_count, opened,
    purge, with_messages, with_two,
};
use disk_tests::Blind;
use std::alloc::Global;
use std::process::Abort;
use std::test::Fail;
use stream_store::Store;
use vol_disk::{Failed, MemVol, Vol};

/// More calls than a change of these tests makes.
const MANY: u64 = 24;

/// The bytes of a large payload. With its subject, a message of it takes 1,048,614 bytes in a block.
const LARGE: usize = 1_048_576;

/// A store and its volume, with seven messages of large payloads and one of so many bytes.
fn filled_largely(alloc: Global, last: usize) -> Result<(Store, Blind), Fail> {
    let mut sizes = vec![in alloc; LARGE; 7]?;
    sizes.push(last)?;
    filled(alloc, sizes.as_slice())
}

/// Whether the files 2 and 3 have so many bytes.
fn has_lengths<V: Vol>(vol: &mut V, second: u64, third: u64) -> Result<bool, Failed> {
    Ok(vol.len(2)? == second && vol.len(3)? == third)
}

#[test]
fn block_is_filled_to_its_last_byte(rt: HostRuntime) -> Result<(), Fail> {
    let (_, mut vol) = filled_largely(rt.alloc(), 1_048_272)?;
    assert!(rt; has_lengths(&mut vol, 8_388_608, 0)?);
    Ok(())
}

/// Checks that the first block is cut to nothing once the last of its seven messages is purged.
fn check_purges(
    rt: &impl Abort,
    alloc: Global,
    store: &mut Store,
    vol: &mut Blind,
) -> Result<(), Fail> {
    assert!(rt; has_lengths(vol, 7_340_298, 1_048_614)?);
    assert!(rt; purge(alloc, store, vol, 7)? == Ended::Done);
    assert!(rt; has_lengths(vol, 7_340_298, 1_048_614)?);
    assert!(rt; purge(alloc, store, vol, 8)? == Ended::Done);
    assert!(rt; has_lengths(vol, 0, 1_048_614)?);
    assert!(rt; message_count(alloc, vol)? == Some(1));
    Ok(())
}

#[test]
fn block_is_cut_to_nothing_once_its_last_message_is_gone(rt: HostRuntime) -> Result<(), Fail> {
    let (mut store, mut vol) = filled_largely(rt.alloc(), LARGE)?;
    check_purges(&rt, rt.alloc(), &mut store, &mut vol)
}

/// Purges a stream of its two messages, and stops at the call with this number.
fn purged(alloc: Global, stop: Option<u64>) -> Result<(Ended, MemVol), Fail> {
    let (mut store, mut vol) = with_two(alloc, &[], stop)?;
    let ended = purge(alloc, &mut store, &mut vol, 3)?;
    Ok((ended, vol.into_vol()))
}

/// Drops a stream of two messages, and stops at the call with this number.
fn dropped(alloc: Global, stop: Option<u64>) -> Result<(Ended, MemVol), Fail> {
    let (mut store, mut vol) = with_two(alloc, &[], stop)?;
    let ended = drop_stream(alloc, &mut store, &mut vol)?;
    Ok((ended, vol.into_vol()))
}

/// Checks how long the first block is, and how many messages the volume holds.
fn check_left(
    rt: &impl Abort,
    alloc: Global,
    vol: &mut MemVol,
    len: u64,
    count: Option<usize>,
) -> Result<(), Fail> {
    assert!(rt; has_lengths(vol, len, 0)?);
    assert!(rt; message_count(alloc, vol)? == count);
    Ok(())
}

#[test]
fn block_being_written_stays_without_messages(rt: HostRuntime) -> Result<(), Fail> {
    let (ended, mut vol) = purged(rt.alloc(), None)?;
    assert!(rt; ended == Ended::Done);
    check_left(&rt, rt.alloc(), &mut vol, 86, Some(0))
}

#[test]
fn block_being_written_is_cut_to_nothing_without_messages_if_it_is_long(
    rt: HostRuntime,
) -> Result<(), Fail> {
    let (mut store, mut vol) = filled(rt.alloc(), &[LARGE, 5])?;
    assert!(rt; purge(rt.alloc(), &mut store, &mut vol, 3)? == Ended::Done);
    assert!(rt; has_lengths(&mut vol, 0, 0)?);
    assert!(rt; message_count(rt.alloc(), &mut vol)? == Some(0));
    Ok(())
}

#[test]
fn block_of_a_dropped_stream_is_cut_to_nothing(rt: HostRuntime) -> Result<(), Fail> {
    let (ended, mut vol) = dropped(rt.alloc(), None)?;
    assert!(rt; ended == Ended::Done);
    check_left(&rt, rt.alloc(), &mut vol, 0, None)
}

/// So many messages behind a change of a stream that had two.
fn of_two(after: Option<usize>) -> Counts {
    Counts { before: 2, after }
}

/// Checks what crashes leave of a purge that is stopped at the call with this number.
fn check_stopped_purge(rt: &impl Abort, alloc: Global, stop: u64) -> Result<(), Fail> {
    let (ended, vol) = purged(alloc, Some(stop))?;
    check_images(rt, alloc, ended, &vol, of_two(Some(0)))
}

#[test]
fn stop_at_each_call_of_a_purge(rt: HostRuntime) -> Result<(), Fail> {
    for stop in 0..MANY {
        check_stopped_purge(&rt, rt.alloc(), stop)?;
    }
    Ok(())
}

/// Purges a volume with eight messages of the seven in its first block, and stops at the call with this number.
fn emptied(alloc: Global, vol: MemVol, stop: u64) -> Result<(Ended, MemVol), Fail> {
    let (mut store, mut vol) = opened(alloc, vol, &[], Some(stop))?;
    let ended = purge(alloc, &mut store, &mut vol, 8)?;
    Ok((ended, vol.into_vol()))
}

/// Checks that a crash leaves eight messages or one of such a purge, and surely one if it was answered, where this image is picked.
fn check_emptied(
    rt: &impl Abort,
    alloc: Global,
    ended: Ended,
    vol: &MemVol,
    pick: u64,
) -> Result<(), Fail> {
    let found = count_in_image(alloc, vol, pick)?;
    let is_old = found == Some(8) && ended == Ended::Failed;
    assert!(rt; found == Some(1) || is_old, "{pick}");
    Ok(())
}

/// Checks what crashes leave of it where it is stopped at the call with this number, and tells what it came to.
fn check_stopped_emptying(
    rt: &impl Abort,
    alloc: Global,
    start: &MemVol,
    stop: u64,
) -> Result<Ended, Fail> {
    let (ended, vol) = emptied(alloc, start.image(1)?, stop)?;
    check_emptied(rt, alloc, ended, &vol, 0)?;
    check_emptied(rt, alloc, ended, &vol, stop)?;
    Ok(ended)
}

#[test]
fn stop_at_each_call_of_a_purge_that_empties_a_block(rt: HostRuntime) -> Result<(), Fail> {
    let (_, vol) = filled_largely(rt.alloc(), LARGE)?;
    let start = vol.into_vol();
    for stop in 0..MANY {
        if check_stopped_emptying(&rt, rt.alloc(), &start, stop)? == Ended::Done {
            return Ok(());
        }
    }
    Err(Failed)?
}

/// Checks what crashes leave of a drop that is stopped at the call with this number.
fn check_stopped_drop(rt: &impl Abort, alloc: Global, stop: u64) -> Result<(), Fail> {
    let (ended, vol) = dropped(alloc, Some(stop))?;
    check_images(rt, alloc, ended, &vol, of_two(None))
}

#[test]
fn stop_at_each_call_of_a_drop(rt: HostRuntime) -> Result<(), Fail> {
    for stop in 0..MANY {
        check_stopped_drop(&rt, rt.alloc(), stop)?;
    }
    Ok(())
}

/// A volume with a stream of two messages, and with bytes in files that are none of its blocks.
fn with_leftovers(alloc: Global) -> Result<MemVol, Fail> {
    let mut vol = with_messages(alloc, &[5, 5])?;
    vol.write_at(3, 0, b"left")?;
    vol.write_at(9, 0, b"left")?;
    vol.write_at(65_535, 0, b"left")?;
    Ok(vol)
}

/// Opens a volume and clears what is not used, and stops at the call with this number.
fn cleared(alloc: Global, vol: MemVol, stop: Option<u64>) -> Result<(Ended, MemVol), Fail> {
    let (mut store, mut vol) = opened(alloc, vol, &[], stop)?;
    let ended = clear(&mut store, &mut vol)?;
    Ok((ended, vol.into_vol()))
}

/// Whether the files 9 and 65,535 are empty.
fn are_empty(vol: &mut MemVol) -> Result<bool, Failed> {
    Ok(vol.len(9)? == 0 && vol.len(65_535)? == 0)
}

/// Checks that a crash leaves the block of two messages and no other, where this image is picked.
fn check_cleared(rt: &impl Abort, alloc: Global, vol: &MemVol, pick: u64) -> Result<(), Fail> {
    let mut image = vol.image(pick)?;
    assert!(rt; are_empty(&mut image)?, "{pick}");
    check_left(rt, alloc, &mut image, 86, Some(2))
}

#[test]
fn files_that_are_no_blocks_are_cut_to_nothing(rt: HostRuntime) -> Result<(), Fail> {
    let alloc = rt.alloc();
    let (ended, vol) = cleared(alloc, with_leftovers(alloc)?, None)?;
    assert!(rt; ended == Ended::Done);
    for pick in 0..20 {
        check_cleared(&rt, alloc, &vol, pick)?;
    }
    Ok(())
}

/// Checks that both messages stay where a clearing is stopped at the call with this number.
fn check_stopped_clearing(rt: &impl Abort, alloc: Global, stop: u64) -> Result<(), Fail> {
    let vol = with_leftovers(alloc)?;
    let (_, vol) = cleared(alloc, vol, Some(stop))?;
    check_images(rt, alloc, Ended::Done, &vol, of_two(Some(2)))
}

#[test]
fn stop_at_each_call_of_a_clearing(rt: HostRuntime) -> Result<(), Fail> {
    for stop in 0..MANY {
        check_stopped_clearing(&rt, rt.alloc(), stop)?;
    }
    Ok(())
}

/// Checks that the block is cleared in what a crash leaves of a stopped drop if the stream is gone.
fn check_left_by_drop(rt: &impl Abort, alloc: Global, vol: &MemVol, pick: u64) -> Result<(), Fail> {
    let (_, mut vol) = cleared(alloc, vol.image(pick)?, None)?;
    match message_count(alloc, &mut vol)? {
        None => check_left(rt, alloc, &mut vol, 0, None),
        count => check_left(rt, alloc, &mut vol, 86, count),
    }
}

#[test]
fn block_that_a_stopped_drop_left_is_cut_to_nothing(rt: HostRuntime) -> Result<(), Fail> {
    for stop in 0..MANY {
        let (_, vol) = dropped(rt.alloc(), Some(stop))?;
        for pick in 0..3 {
            check_left_by_drop(&rt, rt.alloc(), &vol, pick)?;
        }
    }
    Ok(())
}
