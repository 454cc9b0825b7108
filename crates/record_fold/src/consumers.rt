//! The consumers of a stream, in order of their names.

ghost use Rattle.std.specs.Prelude.{◌≡◌, ◌<◌, ◌^◌, Some, OnOk, IfErr, map, filter, not};
ghost use Rattle.std.specs.List.{position};
ghost use Rattle.js_base.specs.Bytes.{same};
ghost use Rattle.js_model.specs.Streams.{by_name};
ghost use Rattle.js_model.specs.Consumers.{is_before, with_new};
ghost use Rattle.js_model.specs.Acknowledge.{without};
ghost use Rattle.model_laws.specs.Sound.{AreOrdered};
ghost use Rattle.effects.specs.Folding.{holding, delivered_to};
ghost use Rattle.effects.specs.Ranges.{is_within};
ghost use Rattle.record_fold.specs.Changes.{changed, changed_in, replaced_in};
ghost use Rattle.record_fold.specs.Entries.{IsGivenIn};
ghost use Rattle.record_fold.specs.Faults.{IsChangeFault, IsChangeFaultIn};
ghost use Rattle.record_fold.specs.Misfits.{after_name};

use crate::change::Change;
use crate::entries::{give_up, put_entry, set_due};
use crate::fault::FoldFault;
use crate::lists::{drop_entries, drop_seqs, take};
use js_base::{Blob, List, NoMemory};
use js_model::{Consumer, Pending};
use std::alloc::Global;

/// Holds nothing of a range of sequences any more.
fn forget(alloc: Global, consumer: &mut Consumer, low: u64, high: u64)
    ensures value { consumer.new ≡ holding (λ n. not (is_within low high n)) consumer.old }
{
    drop_seqs(alloc, &mut consumer.picks, low, high);
    end(alloc, consumer, low, high);
}

/// Holds nothing of a range of sequences any more, whichever consumer it is.
pub(crate) fn forget_all(alloc: Global, consumers: &mut [Consumer], low: u64, high: u64)
    ensures value { consumers.new ≡ map (holding (λ n. not (is_within low high n))) consumers.old }
{
    for consumer in consumers.iter_mut() {
        forget(alloc, consumer, low, high);
    }
}

/// Ends the deliveries of a range of sequences, and those that were given up.
fn end(alloc: Global, consumer: &mut Consumer, low: u64, high: u64)
    ensures value { consumer.new ≡ without (is_within low high) consumer.old }
{
    drop_entries(alloc, &mut consumer.pending, low, high);
    drop_seqs(alloc, &mut consumer.given_up, low, high);
}

/// A message was sent.
fn deliver(
    alloc: Global,
    consumer: &mut Consumer,
    entry: Pending,
    dseq: u64,
) -> Result<(), NoMemory>
    requires given { entry.seq < 2 ^ 62 }
    ensures ok { OnOk result (consumer.new ≡ delivered_to entry dseq consumer.old) }
{
    consumer.dseq = dseq;
    consumer.cursor = consumer.cursor.max(entry.seq.saturating_add(1));
    drop_seqs(alloc, &mut consumer.picks, entry.seq, entry.seq);
    if !consumer.is_unacknowledged() {
        let mut pending = take(alloc, &mut consumer.pending);
        put_entry(&mut pending, entry)?;
        consumer.pending = List::from_vec(pending);
    }
    Ok(())
}

/// Where a field stands so many numbers behind a consumer's name.
fn after_name(name: &Blob, count: usize) -> usize
    requires few { count < 8 }
    ensures value { result ≡ after_name name.now count }
{
    2 + name.len() + 8 * count
}

/// Makes the change.
fn change(alloc: Global, consumer: &mut Consumer, change: Change) -> Result<(), FoldFault>
    requires given { IsGivenIn change }
    ensures ok { OnOk result (changed change consumer.old ≡ Some consumer.new) }
    ensures err { IfErr result (IsChangeFault change consumer.old) }
{
    match change {
        Change::Deliver { entry, dseq } => {
            if consumer.dseq.checked_add(1) != Some(dseq) {
                return Err(FoldFault::Misfit(after_name(&consumer.name, 3)));
            }
            Ok(deliver(alloc, consumer, entry, dseq)?)
        }
        Change::End { low, high } => {
            end(alloc, consumer, low, high);
            Ok(())
        }
        Change::Due { seq, due } => {
            let mut pending = take(alloc, &mut consumer.pending);
            let is_there = set_due(pending.as_mut_slice(), seq, due);
            consumer.pending = List::from_vec(pending);
            if is_there {
                Ok(())
            } else {
                Err(FoldFault::Misfit(after_name(&consumer.name, 0)))
            }
        }
        Change::GiveUp { moment } => Ok(give_up(alloc, consumer, moment)?),
    }
}

/// The place of the consumer of a name.
pub(crate) fn place_of(consumers: &[Consumer], name: &Blob) -> Option<usize>
    ensures value { result ≡ position (λ c. same c.name name.now) consumers.now }
{
    consumers.iter().position(|consumer| consumer.name == *name)
}

/// Changes the consumer of a name. If it is not there, the name is wrong.
pub(crate) fn change_one(
    alloc: Global,
    consumers: &mut [Consumer],
    name: &Blob,
    made: Change,
) -> Result<(), FoldFault>
    requires ordered { AreOrdered consumers.old }
    requires given { IsGivenIn made }
    ensures ok { OnOk result (replaced_in consumers.old (changed_in made (by_name consumers.old name.now)) ≡ Some consumers.new) }
    ensures err { IfErr result (IsChangeFaultIn name.now made (by_name consumers.old name.now)) }
{
    let Some(place) = place_of(consumers, name) else {
        return Err(FoldFault::Misfit(1));
    };
    change(alloc, &mut consumers[place], made)
}

/// Whether a name comes before another.
fn is_before(one: &Blob, other: &Blob) -> bool
    ensures value { result ≡ is_before one.now other.now }
{
    one.as_slice().cmp(other.as_slice()).is_lt()
}

/// The place of the first consumer whose name is not before another.
fn new_place(consumers: &[Consumer], name: &Blob) -> Option<usize>
    ensures value { result ≡ position (λ c. not (is_before c.name name.now)) consumers.now }
{
    consumers
        .iter()
        .position(|consumer| !is_before(&consumer.name, name))
}

/// Adds a consumer at its place in the order of names.
pub(crate) fn add_one(consumers: &mut Vec<Consumer>, new: Consumer) -> Result<(), NoMemory>
    ensures ok { OnOk result (consumers.new.items ≡ with_new consumers.old.items new) }
{
    let place = new_place(consumers.as_slice(), &new.name).unwrap_or(consumers.len());
    consumers.insert(place, new)?;
    Ok(())
}

/// Takes the consumer of a name out.
pub(crate) fn remove_one(consumers: &mut Vec<Consumer>, name: &Blob)
    ensures left { consumers.new.items ≡ filter (λ c. not (same c.name name.now)) consumers.old.items }
{
    consumers.retain(|consumer| consumer.name != *name);
}
