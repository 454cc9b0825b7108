//! `gate_log`: what an append asks of the volume, however many records there are.

use crate::logs::logged;
use gate_log::Batch;
use std::test::Fail;
use vol_disk::{Call, Deed};

/// How many bytes a call writes, or `None` for another call than a write.
fn write_len(call: &Call) -> Option<usize> {
    match &call.deed {
        Deed::Write { at: _, bytes } => Some(bytes.len()),
        Deed::Len
        | Deed::Read { at: _, count: _ }
        | Deed::Grow { count: _ }
        | Deed::Cut { to: _ }
        | Deed::Sync
        | Deed::End => None,
    }
}

/// Whether the calls write a batch of so many bytes of records with its length, its checksum and a closed gate, and then open its gate, each with a sync.
/// `Blind` asks for the length before each write.
fn are_an_append(calls: &[Call], records: usize) -> bool {
    match calls {
        [_, batch, batch_sync, _, gate, gate_sync] => {
            write_len(batch) == Some(records.saturating_add(9))
                && write_len(gate) == Some(1)
                && matches!(&batch_sync.deed, Deed::Sync)
                && matches!(&gate_sync.deed, Deed::Sync)
        }
        _ => false,
    }
}

#[test]
fn append_takes_two_writes_each_with_a_sync(rt: HostRuntime) -> Result<(), Fail> {
    let alloc = rt.alloc();
    for count in 0..30 {
        let (mut vol, mut log) = logged(alloc)?;
        let records = vec![in alloc; b'x'; count]?;
        let batch = Batch::of(alloc, records.as_slice())?;
        let before = vol.vol().calls().len();
        log.append_batch(&mut vol, &batch)?;
        let made = vol.vol().calls().get(before..);
        assert!(rt;
            made.is_some_and(|calls| are_an_append(calls, count)),
            "{count}"
        );
    }
    Ok(())
}
