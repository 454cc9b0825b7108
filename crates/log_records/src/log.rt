//! The batches of a log, one after the other.

ghost use Rattle.std.specs.Prelude.{◌<◌, ◌≤◌, ◌^◌, length, Some, IfOk, IfErr, IsErrOf, IsTrue, List};
ghost use Rattle.vol_disk.specs.Moments.{Quiet};
ghost use Rattle.js_base.specs.Bytes.{Bytes};
ghost use Rattle.js_base.specs.Causes.{HasCause};
ghost use Rattle.gate_log.specs.Settled.{IsSettled};
ghost use Rattle.gate_log.specs.Reading.{IsReadAt, IsSomeGate};
ghost use Rattle.durable_checks.specs.Storable.{IsStorable};
ghost use Rattle.log_records.specs.Batches.{Begins};
ghost use Rattle.log_records.specs.Logged.{IsLogged};
ghost use Rattle.log_records.specs.Holding.{IsSoundMade, given_in, made_in};
ghost use Rattle.log_records.specs.Reading.{GivesIn, IsAddedAt, IsBatch, IsBegun, IsFirstFault, IsFurther, IsLaterFault, IsOffset, IsOffsetOf, IsOutside, IsReadFault, IsTold};

use crate::batch::{BatchFault, add_batch, begin};
use crate::fault::ReadFault;
use crate::made::Made;
use block_table::BlockTable;
use effects::Durable;
use gate_log::{GateLog, LogFault};
use js_base::{Blob, NoMemory};
use std::alloc::Global;
use vol_disk::Vol;

/// The offset of the first gate of a log.
const FIRST_GATE: u64 = 20;

/// How far behind its gate the records of a batch begin.
const RECORDS: u64 = 9;

/// The end of the lengths that a batch can have.
const LENGTHS_END: usize = 1 << 32;

/// What was read of a log.
#[derive(Drop)]
pub struct LogRead {
    /// What outlives a crash. Its messages are unread: of each it has the sequence and the moment, and for the rest a subject of one hyphen, no headers and
    /// no payload.
    pub durable: Durable,
    /// Where the messages lie.
    pub table: BlockTable,
    /// The offset in the log's file of the last record of all batches, which is the snapshot of the first one if none stands behind it. Where no batch is open,
    /// it is that of the first gate.
    pub last: u64,
}

/// The offset of a place among the records of the batch behind a gate. No file has one that is no number of 64 bits.
fn offset(gate: u64, place: usize) -> Option<u64>
    ensures value { IsOffset gate place result }
{
    let begin = gate.checked_add(RECORDS)?;
    begin.checked_add(place as u64)
}

/// The offset of the last record of the batch behind a gate, if there is any.
fn offset_of(gate: u64, last: Option<usize>) -> Result<Option<u64>, NoMemory>
    ensures value { IfOk result (IsOffsetOf gate last) }
{
    let Some(place) = last else {
        return Ok(None);
    };
    match offset(gate, place) {
        Some(at) => Ok(Some(at)),
        None => Err(NoMemory),
    }
}

/// The fault of the batch behind a gate.
fn told(gate: u64, fault: BatchFault) -> ReadFault
    ensures value { IsTold gate fault result }
{
    match fault {
        BatchFault::Wrong(place) => match offset(gate, place) {
            Some(at) => ReadFault::Damaged(at),
            None => ReadFault::NoMemory,
        },
        BatchFault::NoMemory => ReadFault::NoMemory,
    }
}

/// What the first batch of a log tells: what its place was when the log was begun.
fn add_first(alloc: Global, records: &[u8]) -> Result<Made, ReadFault>
    requires batch { IsBatch records.now }
    ensures begun { IfOk result (λ made. Begins records.now (made_in made)) }
    ensures sound { IfOk result IsSoundMade }
    ensures storable { IfOk result (λ made. IsStorable (made_in made).durable) }
    ensures fault { IfErr result (IsFirstFault records.now) }
{
    if records.is_empty() {
        return Err(ReadFault::Damaged(FIRST_GATE));
    }
    match begin(alloc, records) {
        Ok(made) => Ok(made),
        Err(fault) => Err(told(FIRST_GATE, fault)),
    }
}

/// Adds the later batch behind a gate, and tells the offset of its last record, if there is any.
fn add_later(
    alloc: Global,
    gate: u64,
    records: &[u8],
    made: Made,
) -> Result<(Made, Option<u64>), ReadFault>
    requires batch { IsBatch records.now }
    requires sound { IsSoundMade made }
    requires storable { IsStorable (made_in made).durable }
    ensures added { IfOk result (λ r. IsAddedAt gate (made_in made) records.now (made_in r.0) r.1) }
    ensures sound { IfOk result (λ r. IsSoundMade r.0) }
    ensures fault { IfErr result (IsLaterFault gate (made_in made) records.now) }
{
    match add_batch(alloc, records, made) {
        Ok((made, last)) => match offset_of(gate, last) {
            Ok(at) => Ok((made, at)),
            Err(NoMemory) => Err(ReadFault::NoMemory),
        },
        Err(fault) => Err(told(gate, fault)),
    }
}

/// Whether these can be the records of a batch behind a gate, and the other can be the next gate.
fn is_batch(records: &Blob, gate: u64, next: u64) -> bool
    ensures further { IsTrue result → IsFurther gate (Some (records.now, next)) }
    ensures rest { (length records.now < 2 ^ 32) × (gate < next) → IsTrue result }
{
    records.len() < LENGTHS_END && gate < next
}

/// The records of the batch behind a gate, and the next gate, or `None` at the log's end. A volume that keeps what it is told never tells a batch that is
/// longer than a batch can be, nor a gate that is none of the next.
fn next_batch<V: Vol>(
    alloc: Global,
    vol: &mut V,
    log: &GateLog,
    gate: u64,
) -> Result<Option<(Blob, u64)>, ReadFault>
    requires gate { V.told → IsSomeGate log.now gate (V.disk vol.old) }
    ensures found { V.told → IfOk result (IsReadAt log.now gate (V.disk vol.old)) }
    ensures further { IfOk result (IsFurther gate) }
    ensures quiet { V.told → Quiet (V.disk vol.old) (V.disk vol.new) }
    ensures only { V.told → IfErr result IsOutside }
    ensures cause { HasCause (V.faults vol.old) (V.faults vol.new) (IsErrOf result ReadFault.Fault) }
    ensures refusals { V.refusals vol.old ≤ V.refusals vol.new }
    ensures later { (V.disk vol.old).moment ≤ (V.disk vol.new).moment }
{
    match log.batch(alloc, vol, gate) {
        Ok(None) => Ok(None),
        Ok(Some((records, next))) => {
            if is_batch(&records, gate, next) {
                Ok(Some((records, next)))
            } else {
                Err(ReadFault::Damaged(gate))
            }
        }
        Err(LogFault::Fault) => Err(ReadFault::Fault),
        Err(LogFault::NoMemory | LogFault::Damaged(_) | LogFault::UnknownVersion(_)) => {
            Err(ReadFault::NoMemory)
        }
    }
}

/// What the batches from a gate on give, behind a first one that tells what its place was when the log was begun.
fn read_later<V: Vol>(
    alloc: Global,
    vol: &mut V,
    log: &GateLog,
    first_end: u64,
    begun: Made,
) -> Result<LogRead, ReadFault>
    requires sound { IsSoundMade begun }
    requires storable { IsStorable (made_in begun).durable }
    requires begun { V.told → IsBegun log.now first_end (made_in begun) (V.disk vol.old) }
    ensures gives { V.told → IfOk result (GivesIn log.now (V.disk vol.old)) }
    // Of any volume:
    ensures logged { IfOk result (λ read. IsLogged (given_in read)) }
    ensures storable { IfOk result (λ read. IsStorable read.durable) }
    ensures fault { V.told → IfErr result (IsReadFault log.now (V.disk vol.old)) }
    ensures quiet { V.told → Quiet (V.disk vol.old) (V.disk vol.new) }
    ensures cause { HasCause (V.faults vol.old) (V.faults vol.new) (IsErrOf result ReadFault.Fault) }
    ensures refusals { V.refusals vol.old ≤ V.refusals vol.new }
    ensures later { (V.disk vol.old).moment ≤ (V.disk vol.new).moment }
{
    let mut made = begun;
    let mut last = FIRST_GATE + RECORDS;
    let mut gate = first_end;
    while let Some((records, next)) = next_batch(alloc, vol, log, gate)? {
        let (added, later) = add_later(alloc, gate, records.as_slice(), made)?;
        made = added;
        last = later.unwrap_or(last);
        gate = next;
    }
    let read = made.into_read(alloc, last)?;
    Ok(read)
}

/// What the open batches of a log give: the first is a snapshot of its place when the log was begun, and each later one tells what changed. Where none is
/// open, the place is vacant and never had a stream. No block is looked at.
pub fn read_log<V: Vol>(alloc: Global, vol: &mut V, log: &GateLog) -> Result<LogRead, ReadFault>
    requires settled { V.told → (batches : List Bytes) × IsSettled log.now batches (V.disk vol.old) }
    ensures gives { V.told → IfOk result (GivesIn log.now (V.disk vol.old)) }
    // Of any volume:
    ensures logged { IfOk result (λ read. IsLogged (given_in read)) }
    ensures storable { IfOk result (λ read. IsStorable read.durable) }
    ensures fault { V.told → IfErr result (IsReadFault log.now (V.disk vol.old)) }
    ensures quiet { V.told → Quiet (V.disk vol.old) (V.disk vol.new) }
    ensures cause { HasCause (V.faults vol.old) (V.faults vol.new) (IsErrOf result ReadFault.Fault) }
    ensures refusals { V.refusals vol.old ≤ V.refusals vol.new }
    ensures later { (V.disk vol.old).moment ≤ (V.disk vol.new).moment }
{
    let Some((first, gate)) = next_batch(alloc, vol, log, FIRST_GATE)? else {
        let vacant = Made::beginning(alloc, 0)?;
        let read = vacant.into_read(alloc, FIRST_GATE)?;
        return Ok(read);
    };
    let begun = add_first(alloc, first.as_slice())?;
    read_later(alloc, vol, log, gate, begun)
}
