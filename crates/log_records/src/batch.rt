//! The records of one batch.

ghost use Rattle.std.specs.Prelude.{◌≡◌, ◌<◌, ◌≤◌, length, IfOk, IfErr};
ghost use Rattle.durable_checks.specs.Storable.{IsStorable};
ghost use Rattle.log_records.specs.Batches.{Begins};
ghost use Rattle.log_records.specs.Holding.{IsSoundMade, made_in};
ghost use Rattle.log_records.specs.Reading.{AreRead, IsAdded, IsBatch, IsBatchFault, IsNext, IsNextFault, IsPlaced, IsStartFault};

use crate::beginning::made_of;
use crate::made::Made;
use js_base::NoMemory;
use op_records::{RecordFault, read_record};
use record_fold::FoldFault;
use state_snapshot::read_snapshot;
use std::alloc::Global;

/// Why the records of a batch give nothing.
#[derive(Clone, Copy, Debug, PartialEq, Eq)]
pub(crate) enum BatchFault {
    /// The first fault stands so many bytes behind the first record.
    Wrong(usize),
    NoMemory,
}

impl From<NoMemory> for BatchFault {
    ghost use Rattle.log_records.specs.declared.batch.BatchFault.TheVariants.{NoMemory as OutOfMemory};

    ghost from_gives = { λ refused fault. fault ≡ OutOfMemory };

    fn from(_refused: NoMemory) -> BatchFault {
        BatchFault::NoMemory
    }
}

impl From<RecordFault> for BatchFault {
    ghost use Rattle.log_records.specs.Reading.{fault_of};

    ghost from_gives = { λ wrong fault. fault ≡ fault_of wrong };

    fn from(fault: RecordFault) -> BatchFault {
        match fault {
            RecordFault::Cut(at) | RecordFault::BadKind(at) | RecordFault::BadField(at) => {
                BatchFault::Wrong(at)
            }
            RecordFault::NoMemory => BatchFault::NoMemory,
        }
    }
}

/// What the first batch of a log tells: what its place was when the log was begun.
pub(crate) fn begin(alloc: Global, records: &[u8]) -> Result<Made, BatchFault>
    requires batch { IsBatch records.now }
    ensures begun { IfOk result (λ made. Begins records.now (made_in made)) }
    ensures sound { IfOk result IsSoundMade }
    ensures storable { IfOk result (λ made. IsStorable (made_in made).durable) }
    ensures fault { IfErr result (IsStartFault records.now) }
{
    let snapshot = read_snapshot(alloc, records)?;
    let found = made_of(alloc, snapshot)?;
    match found {
        Some(made) => Ok(made),
        None => Err(BatchFault::Wrong(0)),
    }
}

/// The fault of a record at a place of a batch, whose field so many bytes behind its kind does not fit. No slice is so long that its place is no number.
fn misfit_at(at: usize, field: usize) -> BatchFault
    ensures value { IsPlaced at field result }
{
    match at.checked_add(field) {
        Some(place) => BatchFault::Wrong(place),
        None => BatchFault::NoMemory,
    }
}

/// Adds the record at a place of a batch, and tells where the next one begins.
fn add_record(
    alloc: Global,
    records: &[u8],
    at: usize,
    made: Made,
) -> Result<(Made, usize), BatchFault>
    requires batch { IsBatch records.now }
    requires within { at ≤ length records.now }
    requires sound { IsSoundMade made }
    ensures next { IfOk result (λ r. IsNext (made_in made) records.now at (made_in r.0) r.1) }
    ensures further { IfOk result (λ r. (at < r.1) × (r.1 ≤ length records.now)) }
    ensures sound { IfOk result (λ r. IsSoundMade r.0) }
    ensures fault { IfErr result (IsNextFault (made_in made) records.now at) }
{
    let (record, behind) = read_record(alloc, records, at)?;
    match made.take(alloc, record) {
        Ok(made) => Ok((made, behind)),
        Err(FoldFault::Misfit(field)) => Err(misfit_at(at, field)),
        Err(FoldFault::NoMemory) => Err(BatchFault::NoMemory),
    }
}

/// Adds the records of a batch, and tells the place of the last one, if there is any.
fn add_records(
    alloc: Global,
    records: &[u8],
    old: Made,
) -> Result<(Made, Option<usize>), BatchFault>
    requires batch { IsBatch records.now }
    requires sound { IsSoundMade old }
    ensures read { IfOk result (λ r. AreRead (made_in old) records.now (made_in r.0) r.1) }
    ensures sound { IfOk result (λ r. IsSoundMade r.0) }
    ensures fault { IfErr result (IsBatchFault (made_in old) records.now) }
{
    let mut made = old;
    let mut last = None;
    let mut at = 0;
    while at < records.len() {
        let (next, behind) = add_record(alloc, records, at, made)?;
        made = next;
        last = Some(at);
        at = behind;
    }
    Ok((made, last))
}

/// Adds a later batch, behind which a block of some size that holds no message is written no more, and tells the place of its last record, if there is any.
pub(crate) fn add_batch(
    alloc: Global,
    records: &[u8],
    old: Made,
) -> Result<(Made, Option<usize>), BatchFault>
    requires batch { IsBatch records.now }
    requires sound { IsSoundMade old }
    requires storable { IsStorable (made_in old).durable }
    ensures added { IfOk result (λ r. IsAdded (made_in old) records.now (made_in r.0) r.1) }
    ensures sound { IfOk result (λ r. IsSoundMade r.0) }
    ensures fault { IfErr result (IsBatchFault (made_in old) records.now) }
{
    let (made, last) = add_records(alloc, records, old)?;
    let storable = made.is_storable(alloc)?;
    if storable {
        return Ok((made.closed(), last));
    }
    match last {
        Some(at) => Err(BatchFault::Wrong(at)),
        None => Ok((made.closed(), None)),
    }
}
