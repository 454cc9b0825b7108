//! Logs as they are made.

ghost use Rattle.std.specs.Prelude.{◌≤◌, IfSome, IsSome};

use gate_log::{Batch, GateLog};
use js_base::{NoMemory, put_bytes, put_u16, put_u32, put_u64};
use op_records::write_vacant;
use std::alloc::Global;
use vol_disk::{DirVol, Vol, whole_chunks};

/// How many records a batch of a filled log has.
const BATCH: u64 = 100;

/// The moment of each message.
const MOMENT: u64 = 1_700_000_000_000_000_000;

/// A log to which batches may be appended, and how long its file is.
#[derive(Drop)]
struct Growing {
    log: GateLog,
    room: u64,
}

/// How long a log is made that has to reach so far: whole chunks, and a head at least.
fn length_for(vol: &DirVol, end: u64) -> u64
    ensures head { 21 ≤ result }
{
    whole_chunks(vol, end).max(21)
}

/// A log in file 0 that says that no stream was there.
fn begun(alloc: Global, vol: &mut DirVol) -> Option<Growing>
    ensures head { IfSome result (λ growing. IsSome growing.log.head) }
{
    let room = GateLog::make_room(vol, 0, length_for(vol, 1)).ok()?;
    let log = GateLog::start(vol, 0, 1).ok()?;
    let mut growing = Growing { log, room };
    let mut first = Vec::new(alloc);
    write_vacant(alloc, 0, &mut first).ok()?;
    growing.append(alloc, vol, first.as_slice())?;
    Some(growing)
}

/// The log in file 0, which is begun if no batch is open there.
fn opened(alloc: Global, vol: &mut DirVol) -> Option<Growing>
    ensures head { IfSome result (λ growing. IsSome growing.log.head) }
{
    let log = GateLog::open(vol, 0).ok()?;
    match log.generation() {
        Some(_) => {
            let room = vol.len(0).ok()?;
            Some(Growing { log, room })
        }
        None => begun(alloc, vol),
    }
}

impl Growing {
    /// Appends a batch of these bytes, for which room is made before if there is too little.
    fn append(&mut self, alloc: Global, vol: &mut DirVol, records: &[u8]) -> Option<()>
        requires head { IsSome self.old.log.head }
        ensures head { IsSome self.new.log.head }
    {
        if records.len() >= 1 << 31 {
            return None;
        }
        let batch = Batch::of(alloc, records).ok()?;
        let end = self.log.end().checked_add(batch.len() as u64 + 10)?;
        if self.room < end {
            self.room = GateLog::make_room(vol, 0, length_for(vol, end)).ok()?;
        }
        if self.room < end {
            return None;
        }
        self.log.append_batch(vol, &batch).ok()
    }
}

/// Adds the record of a message with 100 bytes, which stands at the beginning of the first block.
fn put_message(into: &mut Vec<u8>, seq: u64) -> Result<(), NoMemory> {
    put_bytes(into, &[14])?;
    put_u64(into, seq)?;
    put_u64(into, MOMENT)?;
    put_u16(into, 0)?;
    put_u16(into, 2)?;
    put_u32(into, 0)?;
    put_u32(into, 131)
}

/// The records of messages, from a sequence up to another one.
fn messages(alloc: Global, from: u64, to: u64) -> Result<Vec<u8>, NoMemory> {
    let mut bytes = Vec::new(alloc);
    for seq in from..to {
        put_message(&mut bytes, seq)?;
    }
    Ok(bytes)
}

/// Makes a log of so many records of messages.
pub(crate) fn fill(alloc: Global, vol: &mut DirVol, records: u64) -> Option<u64> {
    let mut growing = begun(alloc, vol)?;
    let mut seq: u64 = 0;
    for _ in 0..records.div_ceil(BATCH) {
        let next = records.min(seq.saturating_add(BATCH));
        let bytes = messages(alloc, seq, next).ok()?;
        growing.append(alloc, vol, bytes.as_slice())?;
        seq = next;
    }
    Some(seq)
}

/// Opens or begins a log, and appends so many batches of so many bytes.
pub(crate) fn append(alloc: Global, vol: &mut DirVol, batches: u64, size: u32) -> Option<u64> {
    let bytes = vec![in alloc; 0u8; size as usize].ok()?;
    let mut growing = opened(alloc, vol)?;
    for _ in 0..batches {
        growing.append(alloc, vol, bytes.as_slice())?;
    }
    Some(batches)
}

/// Writes so many pieces of so many bytes over the begin of the file, which is longer, and syncs none of them.
pub(crate) fn write(alloc: Global, vol: &mut DirVol, batches: u64, size: u32) -> Option<u64> {
    let bytes = vec![in alloc; 0u8; size as usize].ok()?;
    for _ in 0..batches {
        vol.write_at(0, 0, bytes.as_slice()).ok()?;
    }
    Some(batches)
}
