//! The consumers of a stream, in the order of their names.

ghost use Rattle.std.specs.Prelude.{◌≡◌, filter, map, not, ⊤, OnOk};
ghost use Rattle.std.specs.Bool.{OnTrue};
ghost use Rattle.std.specs.List.{position};
ghost use Rattle.js_base.specs.Bytes.{same};
ghost use Rattle.js_model.specs.Acknowledge.{with_due, without};
ghost use Rattle.js_model.specs.Consumers.{is_before, with_new};
ghost use Rattle.model_laws.specs.Sound.{AreOrdered};
ghost use Rattle.effects.specs.Folding.{delivered_to, holding, with_given_up};
ghost use Rattle.effects.specs.Ranges.{is_within};
ghost use Rattle.replayed_consumer.specs.Delivering.{CanDeliver};
ghost use Rattle.replayed_consumer.specs.Storable.{Keeps, KeepsWith};
ghost use Rattle.log_replay.specs.Made.{Replaces};
ghost use Rattle.log_replay.specs.Taken.{HasPending, IsThere};

use js_base::{Blob, Moment, NoMemory};
use js_model::Pending;
use replayed_consumer::ReplayedConsumer;

/// Whether this is the consumer's name.
fn is_named(consumer: &ReplayedConsumer, name: &Blob) -> bool
    ensures value { result ≡ same consumer.now.name name.now }
{
    consumer.name().as_slice() == name.as_slice()
}

/// Whether the consumer's name comes before this one.
fn is_before(consumer: &ReplayedConsumer, name: &Blob) -> bool
    ensures value { result ≡ is_before consumer.now.name name.now }
{
    consumer.name().as_slice().cmp(name.as_slice()).is_lt()
}

/// The place of the consumer of a name.
pub(crate) fn place_of(consumers: &[ReplayedConsumer], name: &Blob) -> Option<usize>
    ensures value { result ≡ position (λ c. same c.name name.now) consumers.now }
{
    consumers
        .iter()
        .position(|consumer| is_named(consumer, name))
}

/// The place of the first consumer whose name is not before another.
fn new_place(consumers: &[ReplayedConsumer], name: &Blob) -> Option<usize>
    ensures value { result ≡ position (λ c. not (is_before c.name name.now)) consumers.now }
{
    consumers
        .iter()
        .position(|consumer| !is_before(consumer, name))
}

/// Adds a consumer at its place in the order of names.
pub(crate) fn add_one(
    consumers: &mut Vec<ReplayedConsumer>,
    new: ReplayedConsumer,
) -> Result<(), NoMemory>
    ensures ok { OnOk result (consumers.new.items ≡ with_new consumers.old.items new) }
{
    let place = new_place(consumers.as_slice(), new.name()).unwrap_or(consumers.len());
    consumers.insert(place, new)?;
    Ok(())
}

/// Takes the consumer of a name out.
pub(crate) fn remove_one(consumers: &mut Vec<ReplayedConsumer>, name: &Blob)
    ensures left { consumers.new.items ≡ filter (λ c. not (same c.name name.now)) consumers.old.items }
{
    consumers.retain(|consumer| !is_named(consumer, name));
}

/// Has no consumer hold anything of a range of sequences any more, both ends too. It takes no memory.
pub(crate) fn forget_all(consumers: &mut [ReplayedConsumer], low: u64, high: u64)
    ensures value { consumers.new ≡ map (holding (λ n. not (is_within low high n))) consumers.old }
{
    for consumer in consumers.iter_mut() {
        consumer.forget(low, high);
    }
}

/// Notes that a message was sent to the consumer of a name.
pub(crate) fn deliver_one(
    consumers: &mut [ReplayedConsumer],
    name: &Blob,
    entry: Pending,
    dseq: u64,
) -> Result<(), NoMemory>
    requires ordered { AreOrdered consumers.old }
    requires there { IsThere consumers.old name.now (λ c. CanDeliver c entry dseq) }
    ensures ok { OnOk result (Replaces name.now (λ one other. (other ≡ delivered_to entry dseq one) × KeepsWith entry.seq one other) consumers.old consumers.new) }
{
    let Some(place) = place_of(consumers, name) else {
        unreachable!();
    };
    consumers[place].deliver(entry, dseq)
}

/// Ends the deliveries of a range of sequences at the consumer of a name, both ends too, and those that were given up. It takes no memory.
pub(crate) fn end_one(consumers: &mut [ReplayedConsumer], name: &Blob, low: u64, high: u64)
    requires ordered { AreOrdered consumers.old }
    requires there { IsThere consumers.old name.now (λ c. ⊤) }
    ensures value { Replaces name.now (λ one other. (other ≡ without (is_within low high) one) × Keeps one other) consumers.old consumers.new }
{
    let Some(place) = place_of(consumers, name) else {
        unreachable!();
    };
    consumers[place].end(low, high);
}

/// Makes a delivery that waits at the consumer of a name due at another moment. It takes no memory.
pub(crate) fn set_due_at_one(consumers: &mut [ReplayedConsumer], name: &Blob, seq: u64, due: Moment)
    requires ordered { AreOrdered consumers.old }
    requires there { IsThere consumers.old name.now (HasPending seq) }
    ensures value { Replaces name.now (λ one other. (other ≡ with_due seq due one) × Keeps one other) consumers.old consumers.new }
{
    let Some(place) = place_of(consumers, name) else {
        unreachable!();
    };
    consumers[place].set_due(seq, due);
}

/// Gives up what the consumer of a name was delivered as often as it may be and is due by a moment. It takes no memory.
pub(crate) fn give_up_at_one(consumers: &mut [ReplayedConsumer], name: &Blob, moment: Moment)
    requires ordered { AreOrdered consumers.old }
    requires there { IsThere consumers.old name.now (λ c. ⊤) }
    ensures value { Replaces name.now (λ one other. (other ≡ with_given_up moment one) × Keeps one other) consumers.old consumers.new }
{
    let Some(place) = place_of(consumers, name) else {
        unreachable!();
    };
    consumers[place].give_up(moment);
}

/// Whether there is a consumer of the name.
pub(crate) fn is_there(consumers: &[ReplayedConsumer], name: &Blob) -> bool
    ensures there { OnTrue result (IsThere consumers.now name.now (λ c. ⊤)) }
{
    place_of(consumers, name).is_some()
}

/// Whether the consumer of the name can be sent a message.
pub(crate) fn one_takes_delivery(
    consumers: &[ReplayedConsumer],
    name: &Blob,
    entry: Pending,
    dseq: u64,
) -> bool
    ensures there { OnTrue result (IsThere consumers.now name.now (λ c. CanDeliver c entry dseq)) }
{
    let Some(place) = place_of(consumers, name) else {
        return false;
    };
    consumers[place].takes_delivery(entry, dseq)
}

/// Whether a delivery of the sequence waits at the consumer of the name.
pub(crate) fn one_takes_due(consumers: &[ReplayedConsumer], name: &Blob, seq: u64) -> bool
    ensures there { OnTrue result (IsThere consumers.now name.now (HasPending seq)) }
{
    let Some(place) = place_of(consumers, name) else {
        return false;
    };
    consumers[place].takes_due(seq)
}
