//! Leaving the log for the other one.

ghost use Rattle.std.specs.Prelude.{◌≡◌, ◌≢◌, ◌↔◌, ◌+◌, ◌<◌, ◌≤◌, ◌^◌, [], false, find, map, nat_le, option_map, Some, IfOk, IfSome, IsErr, IsTrue, OnOk, length};
ghost use Rattle.std.specs.List.{list_all};
ghost use Rattle.js_base.specs.Causes.{HasCause};
ghost use Rattle.js_model.specs.Streams.{seqs};
ghost use Rattle.effects.specs.declared.durable.Durable.{Durable};
ghost use Rattle.vol_disk.specs.Does.{Rests};
ghost use Rattle.block_table.specs.Blocks.{Blocks};
ghost use Rattle.block_table.specs.Tables.{AreRising, IsTable};
ghost use Rattle.block_writing.specs.Writing.{AreAsLong};
ghost use Rattle.durable_checks.specs.Storable.{IsFormed, IsStorable};
ghost use Rattle.gate_log.specs.LogState.{new_log, with_batch};
ghost use Rattle.gate_log.specs.Settled.{IsSettled};
ghost use Rattle.op_records.specs.Allowed.{is_record};
ghost use Rattle.stream_store.specs.Alternating.{IsLong, IsWithinBound, first_batch, first_length, longest, other_file as other_in};
ghost use Rattle.stream_store.specs.Base.{IsBaseOf, KeepsBaseOf, LeavesBaseOf};
ghost use Rattle.stream_store.specs.Clearing.{IsOtherClosed};
ghost use Rattle.stream_store.specs.Placing.{blocks_then, can_place};
ghost use Rattle.stream_store.specs.Staging.{IsFirstWith, is_written};
ghost use Rattle.stream_store.specs.Steps.{with_steps};
ghost use Rattle.stream_store.specs.Writing.{HasStagedRoom, IsReady, IsStagedFor, IsWrittenNext, LeavesStagedNext};

use crate::clearing::{close_other, other_file};
use crate::logs::law_bytes;
use crate::reading::messages_of;
use crate::rooms::MAX_LOG;
use crate::staging::{Staged, left_blocks, planned, take_away};
use crate::steps::{Step, steps_of, take_step};
use crate::writing::write_staged;
use block_table::BlockTable;
use effects::{Durable, Effect};
use gate_log::{Batch, GateLog};
use js_base::NoMemory;
use js_model::Message;
use state_snapshot::write_snapshot;
use std::alloc::Global;
use vol_disk::{Failed, Vol};

/// How much longer than its place comes to a log may get at least, before it is left: 15/16 MiB, so that the log of a small place stays within its first MiB.
const LEAST: u64 = (1 << 20) - (1 << 16);

/// The bytes of a batch and the gate behind it that are no records.
const AROUND_BATCH: u64 = 10;

/// How long a log may get whose place comes to so much.
fn longest(bound: u64) -> u64
    ensures value { result ≡ longest bound }
{
    bound.saturating_add(bound.max(LEAST)).min(MAX_LOG)
}

/// Whether a batch of so many bytes behind this gate would make a log longer than that.
pub(crate) fn passes(end: u64, count: u64, len: u64) -> bool
    requires small { len ≤ 2 ^ 31 }
    ensures value { IsTrue result ↔ (len < end + 10 + count) }
{
    len < end.saturating_add(AROUND_BATCH).saturating_add(count)
}

/// Whether a log whose place comes to so much is long with a batch of so many bytes.
pub(crate) fn is_long(log: &GateLog, count: usize, bound: u64) -> bool
    ensures value { IsTrue result ↔ IsLong log.now count bound }
{
    log.first_end() < log.end() && passes(log.end(), count as u64, longest(bound))
}

/// The table with these steps.
fn table_with(alloc: Global, table: &BlockTable, steps: &[Step]) -> Result<BlockTable, NoMemory>
    ensures value { IfOk result (λ then. then ≡ with_steps steps.now table.now) }
    ensures table { OnOk result (IsTable table.now) }
{
    let mut then = table.copied(alloc)?;
    for step in steps {
        take_step(&mut then, *step)?;
    }
    Ok(then)
}

/// The sequence behind this one, if this is the first from `from` on for which the table has a spot.
fn seq_behind(table: &BlockTable, from: u64, seq: u64) -> Option<u64>
    ensures value { IfSome result (λ next. (next ≡ seq + 1) × (option_map (λ p. p.seq) (find (λ p. nat_le from p.seq) table.now.placed) ≡ Some seq)) }
{
    let placed = table.at_or_after(from)?;
    if placed.seq == seq {
        seq.checked_add(1)
    } else {
        None
    }
}

/// Whether the table has a spot for each of the messages, and for nothing else.
fn has_spots(table: &BlockTable, messages: &[Message]) -> bool
    requires rising { AreRising table.now.placed }
    ensures value { IsTrue result → map (λ p. p.seq) table.now.placed ≡ seqs messages.now }
{
    let mut from = 0;
    for message in messages {
        let Some(next) = seq_behind(table, from, message.seq) else {
            return false;
        };
        from = next;
    }
    table.at_or_after(from).is_none()
}

/// The first batch of a log, which tells all of this, whose messages lie as the table says, and is within the bound. A table that has not just their spots is
/// refused as if there were no memory: no base has one.
fn first_records(
    alloc: Global,
    next: &Durable,
    table: &BlockTable,
    bound: u64,
) -> Result<Vec<u8>, NoMemory>
    requires formed { IsFormed next.now }
    requires storable { IsStorable next.now }
    requires within { IsWithinBound next.now bound }
    ensures value { IfOk result (λ records. records.items ≡ first_batch next.now table.now) }
    ensures fits { IfOk result (λ records. 30 + length records.items ≤ bound) }
{
    // that the sequences of a table rise is what the proof takes from this call
    let _ = table.older();
    if !has_spots(table, messages_of(next)) {
        return Err(NoMemory);
    }
    let mut records = Vec::new(alloc);
    write_snapshot(alloc, next, table, &mut records)?;
    Ok(records)
}

/// What a commit of these changes is going to write as the first batch of a log, by the table before it, and the table behind it.
pub(crate) fn stage_first(
    alloc: Global,
    table: &BlockTable,
    effects: &[Effect],
    next: &Durable,
    bound: u64,
) -> Result<(Staged, BlockTable), NoMemory>
    requires records { IsTrue (list_all is_record effects.now) }
    requires room { IsTrue (can_place table.now effects.now) }
    requires formed { IsFormed next.now }
    requires storable { IsStorable next.now }
    requires within { IsWithinBound next.now bound }
    requires small { bound ≤ 2 ^ 31 }
    ensures staged { IfOk result (λ r. IsFirstWith table.now effects.now next.now r.0 r.1) }
    ensures fits { OnOk result (30 + first_length next.now (blocks_then table.now effects.now) ≤ bound) }
{
    let plan = planned(alloc, table, effects)?;
    let steps = steps_of(alloc, effects, plan.spots.as_slice())?;
    let then = table_with(alloc, table, steps.as_slice())?;
    let records = first_records(alloc, next, &then, bound)?;
    let bytes = records.as_slice();
    law_bytes(bytes);
    let batch = Batch::of(alloc, bytes)?;
    let all = take_away(steps.as_slice());
    let blocks = left_blocks(alloc, table, plan.runs.as_slice(), all)?;
    let staged = Staged {
        runs: plan.runs,
        batch,
        steps,
        blocks,
    };
    Ok((staged, then))
}

/// Starts the log of the other file, without batches. The file is longer than a head, and stays as long as it was.
pub(crate) fn start_next<V: Vol>(
    vol: &mut V,
    log: &GateLog,
    generation: u64,
) -> Result<GateLog, Failed>
    requires below { generation < 2 ^ 62 }
    requires room { V.told → 21 < length ((V.disk vol.old).seen (other_in log.now.file)) }
    requires base { V.told → (b : Blocks) × (base : Durable) × IsBaseOf log.now b base (V.disk vol.old) }
    ensures log { IfOk result (λ next. next ≡ new_log (other_in log.now.file) (Some generation)) }
    ensures empty { V.told → IfOk result (λ next. IsSettled next [] (V.disk vol.new)) }
    ensures any_moment { V.told → (b : Blocks) → LeavesBaseOf log.now b (V.disk vol.old) (V.disk vol.new) }
    ensures started { V.told → OnOk result ((b : Blocks) → KeepsBaseOf log.now b (V.disk vol.old) (V.disk vol.new)) }
    ensures elsewhere { V.told → (file : _) → file ≢ other_in log.now.file → Rests file (V.disk vol.old) (V.disk vol.new) }
    ensures as_long { V.told → OnOk result (AreAsLong (V.disk vol.old) (V.disk vol.new)) }
    ensures cause { HasCause (V.faults vol.old) (V.faults vol.new) (IsErr result) }
    ensures refusals { V.refusals vol.old ≤ V.refusals vol.new }
    ensures later { (V.disk vol.old).moment ≤ (V.disk vol.new).moment }
{
    GateLog::start(vol, other_file(log.file()), generation)
}

/// Writes the messages into their blocks, and then the first batch of the next log, which is started; and then shuts the log that is left. Nothing but a failure
/// of the volume ends it early.
pub(crate) fn write_first<V: Vol>(
    vol: &mut V,
    log: &mut GateLog,
    staged: &Staged,
) -> Result<(), Failed>
    requires ready { IsReady log.old staged.now }
    requires room { V.told → HasStagedRoom log.old staged.now (V.disk vol.old) }
    requires staged { V.told → IsStagedFor log.old staged.now (V.disk vol.old) }
    ensures any_moment { V.told → LeavesStagedNext log.old staged.now (V.disk vol.old) (V.disk vol.new) }
    ensures written { V.told → OnOk result (IsWrittenNext log.old log.new staged.now (V.disk vol.old) (V.disk vol.new)) }
    ensures closed { V.told → OnOk result (IsOtherClosed log.new (V.disk vol.new)) }
    ensures elsewhere { V.told → (file : _) → 2 ≤ file → is_written staged.now.runs.items file ≡ false → Rests file (V.disk vol.old) (V.disk vol.new) }
    ensures as_long { V.told → OnOk result (AreAsLong (V.disk vol.old) (V.disk vol.new)) }
    ensures log { OnOk result (log.new ≡ with_batch log.old (length staged.now.batch)) }
    ensures head { log.new.head ≡ log.old.head }
    ensures cause { HasCause (V.faults vol.old) (V.faults vol.new) (IsErr result) }
    ensures refusals { V.refusals vol.old ≤ V.refusals vol.new }
    ensures later { (V.disk vol.old).moment ≤ (V.disk vol.new).moment }
{
    write_staged(vol, log, staged)?;
    close_other(vol, log)?;
    Ok(())
}
