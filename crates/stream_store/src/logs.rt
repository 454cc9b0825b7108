//! The two logs of a volume, in the files 0 and 1.

ghost use Rattle.std.specs.Prelude.{◌≡◌, ◌<◌, ◌≤◌, List, [], ◌∷◌, Some, All, IfOk, IfErr, IsErrOf};
ghost use Rattle.js_base.specs.Bytes.{Bytes};
ghost use Rattle.block_table.specs.Blocks.{no_blocks};
ghost use Rattle.vol_disk.specs.Moments.{Quiet};
ghost use Rattle.js_base.specs.Causes.{HasCause};
ghost use Rattle.gate_log.specs.Settled.{IsSettled};
ghost use Rattle.effects.specs.Folding.{vacant};
ghost use Rattle.stream_store.specs.Base.{IsBaseOf};
ghost use Rattle.stream_store.specs.Opening.{RestsBut};
ghost use Rattle.op_records.specs.Spelling.{spelled_vacant};
ghost use Rattle.stream_store.specs.Logs.{is_first};
ghost use Rattle.stream_store.specs.Finding.{IsCurrent, IsFaultIn, IsLogFault};
ghost use Rattle.stream_store.specs.Beginning.{IsUnbegun, HoldsNothing, IsBeginFault};

use crate::fault::OpenFault;
use gate_log::{Batch, GateLog};
use js_base::NoMemory;
use op_records::write_vacant;
use std::alloc::Global;
use vol_disk::Vol;

/// The generation of a volume's first log.
pub(crate) const FIRST_GENERATION: u64 = 1;

/// How long a volume's first log is: its head, a gate, the batch of a vacant place and the gate behind it.
pub(crate) const BEGUN_LENGTH: u64 = 39;

/// The current log of a volume, and its file.
#[derive(Drop, Debug)]
pub(crate) struct Current {
    pub(crate) file: u32,
    pub(crate) log: GateLog,
}

/// Whether the log of file 0 is the current one, by the generations of both.
fn is_first(zero: Option<u64>, one: Option<u64>) -> bool
    ensures value { result ≡ is_first zero one }
{
    match (zero, one) {
        (_, None) => true,
        (None, Some(_)) => false,
        (Some(generation), Some(other)) => other <= generation,
    }
}

/// Opens the log of a file, which is synced before.
fn open_log<V: Vol>(vol: &mut V, file: u32) -> Result<GateLog, OpenFault>
    ensures file { IfOk result (λ log. log.file ≡ file) }
    ensures settled { V.told → IfOk result (λ log. (batches : List Bytes) × IsSettled log batches (V.disk vol.new)) }
    ensures fault { V.told → IfErr result (IsFaultIn file (V.disk vol.old).seen) }
    ensures quiet { V.told → Quiet (V.disk vol.old) (V.disk vol.new) }
    ensures no_room { ¬ IsErrOf result OpenFault.NoRoom }
    ensures cause { HasCause (V.faults vol.old) (V.faults vol.new) (IsErrOf result OpenFault.Fault) }
    ensures refusals { V.refusals vol.old ≤ V.refusals vol.new }
    ensures later { (V.disk vol.old).moment ≤ (V.disk vol.new).moment }
{
    match GateLog::open(vol, file) {
        Ok(log) => Ok(log),
        Err(fault) => Err(OpenFault::of_log(file, fault)),
    }
}

/// Opens both logs, each of which is synced before, and gives the current one.
pub(crate) fn open_current<V: Vol>(vol: &mut V) -> Result<Current, OpenFault>
    ensures current { V.told → IfOk result (λ current. IsCurrent current (V.disk vol.old) (V.disk vol.new)) }
    ensures fault { V.told → IfErr result (IsLogFault (V.disk vol.old).seen) }
    ensures quiet { V.told → Quiet (V.disk vol.old) (V.disk vol.new) }
    ensures no_room { ¬ IsErrOf result OpenFault.NoRoom }
    ensures cause { HasCause (V.faults vol.old) (V.faults vol.new) (IsErrOf result OpenFault.Fault) }
    ensures refusals { V.refusals vol.old ≤ V.refusals vol.new }
    ensures later { (V.disk vol.old).moment ≤ (V.disk vol.new).moment }
{
    let zero = open_log(vol, 0)?;
    let one = open_log(vol, 1)?;
    let is_zero = is_first(zero.generation(), one.generation());
    if is_zero {
        Ok(Current { file: 0, log: zero })
    } else {
        Ok(Current { file: 1, log: one })
    }
}

/// Each byte of a slice is below 256. The type says so, and clauses that speak of numbers need it said.
pub(crate) fn law_bytes(bytes: &[u8])
    ensures law { All (λ byte. byte < 256) bytes.now }
{}

/// A volume's first batch: the place is vacant, and never had a stream.
fn first_batch(alloc: Global) -> Result<Batch, NoMemory>
    ensures value { IfOk result (λ batch. batch ≡ spelled_vacant 0) }
    ensures bytes { IfOk result (All (λ byte. byte < 256)) }
{
    let mut records = Vec::new(alloc);
    write_vacant(alloc, 0, &mut records)?;
    let bytes = records.as_slice();
    law_bytes(bytes);
    Batch::of(alloc, bytes)
}

/// Makes a log of generation 1 in file 0, whose one batch says that the place is vacant and never had a stream. `NoRoom` comes if there is no room for it.
pub(crate) fn begin_log<V: Vol>(alloc: Global, vol: &mut V) -> Result<GateLog, OpenFault>
    requires unbegun { V.told → IsUnbegun (V.disk vol.old) }
    ensures head { IfOk result (λ log. log.head ≡ Some 1) }
    ensures file { IfOk result (λ log. log.file ≡ 0) }
    ensures settled { V.told → IfOk result (λ log. IsSettled log (spelled_vacant 0 ∷ []) (V.disk vol.new)) }
    ensures base { V.told → IfOk result (λ log. IsBaseOf log no_blocks (vacant 0) (V.disk vol.new)) }
    ensures elsewhere { V.told → RestsBut 0 (V.disk vol.old) (V.disk vol.new) }
    ensures any_moment { V.told → HoldsNothing (V.disk vol.old) (V.disk vol.new) }
    ensures only { IfErr result IsBeginFault }
    ensures refused { HasCause (V.refusals vol.old) (V.refusals vol.new) (IsErrOf result OpenFault.NoRoom) }
    ensures cause { HasCause (V.faults vol.old) (V.faults vol.new) (IsErrOf result OpenFault.Fault) }
    ensures refusals { V.refusals vol.old ≤ V.refusals vol.new }
    ensures later { (V.disk vol.old).moment ≤ (V.disk vol.new).moment }
{
    let batch = first_batch(alloc)?;
    let len = GateLog::make_room(vol, 0, BEGUN_LENGTH)?;
    if len < BEGUN_LENGTH {
        return Err(OpenFault::NoRoom);
    }
    let mut log = GateLog::start(vol, 0, FIRST_GENERATION)?;
    log.append_batch(vol, &batch)?;
    Ok(log)
}
