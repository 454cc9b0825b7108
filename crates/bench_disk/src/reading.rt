//! Logs and stores as they are opened.

use gate_log::GateLog;
use op_records::read_records;
use state_snapshot::read_snapshot;
use std::alloc::Global;
use stream_store::Store;
use vol_disk::DirVol;

/// The offset of a log's first gate.
const FIRST_GATE: u64 = 20;

/// How many records the batch has whose gate is at an offset. The first batch has a snapshot, which is not counted.
fn records(alloc: Global, gate: u64, bytes: &[u8]) -> Option<u64> {
    if gate == FIRST_GATE {
        let _snapshot = read_snapshot(alloc, bytes).ok()?;
        return Some(0);
    }
    Some(read_records(alloc, bytes).ok()?.len() as u64)
}

/// Opens the log in file 0, reads all its batches, and tells how many records they have behind the snapshot.
pub(crate) fn open(alloc: Global, vol: &mut DirVol) -> Option<u64> {
    let log = GateLog::open(vol, 0).ok()?;
    let mut count: u64 = 0;
    let mut at = FIRST_GATE;
    for _ in 0..u64::MAX {
        let Some((bytes, next)) = log.batch(alloc, vol, at).ok()? else {
            return Some(count);
        };
        count = count.saturating_add(records(alloc, at, bytes.as_slice())?);
        at = next;
    }
    Some(count)
}

/// Opens the volume as a store, and tells how many messages it holds of its stream.
pub(crate) fn open_store(alloc: Global, vol: &mut DirVol) -> Option<u64> {
    let (_, durable) = Store::open(alloc, vol).ok()?;
    Some(durable.body?.messages.len() as u64)
}
