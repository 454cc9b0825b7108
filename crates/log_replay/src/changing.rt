//! Changes of the consumers of a stream.

ghost use Rattle.std.specs.Prelude.{◌≡◌, ◌<◌, ◌+◌, ◌≤◌, ⊤, IsTrue, OnOk, Some};
ghost use Rattle.std.specs.Bool.{OnTrue};
ghost use Rattle.js_base.specs.Bytes.{same};
ghost use Rattle.js_model.specs.Configs.{is_consumer_config};
ghost use Rattle.js_model.specs.Streams.{by_name};
ghost use Rattle.model_laws.specs.Bounds.{IsNumber};
ghost use Rattle.model_laws.specs.Sound.{AreOrdered};
ghost use Rattle.effects.specs.Folding.{acked, consumer_from, delivered, due_at, given_up_by, replaced, with_made, without_consumer};
ghost use Rattle.log_replay.specs.Made.{KeepsStorable};
ghost use Rattle.log_replay.specs.Taken.{CanSend, HasPending, IsStart, IsThere};

use crate::body::ReplayedBody;
use crate::consumers::{
    add_one, deliver_one, end_one, give_up_at_one, is_there, one_takes_delivery, one_takes_due,
    place_of, remove_one, set_due_at_one,
};
use crate::starting::{are_stored, ascend, is_reached, is_stored};
use js_base::{Blob, Moment, NoMemory};
use js_model::{ConsumerConfig, Pending};
use replayed_consumer::ReplayedConsumer;
use std::alloc::Global;

/// The greatest number of consumers of a stream.
const MOST_CONSUMERS: usize = 256;

/// The greatest number of sequences with which a consumer begins.
const MOST_PICKS: usize = 65_536;

impl ReplayedBody {
    /// Whether there is a consumer of the name.
    pub(crate) fn has_consumer(&self, name: &Blob) -> bool
        ensures there { OnTrue result (IsThere self.now.consumers name.now (λ c. ⊤)) }
    {
        is_there(self.consumers.as_slice(), name)
    }

    /// Whether a consumer of the name may begin there.
    pub(crate) fn takes_start(&self, name: &Blob, cursor: u64, picks: &[u64]) -> bool
        ensures start { OnTrue result (IsStart self.now name.now cursor picks.now) }
    {
        if place_of(self.consumers.as_slice(), name).is_some() {
            return false;
        }
        if self.consumers.len() >= MOST_CONSUMERS {
            return false;
        }
        if picks.len() > MOST_PICKS {
            return false;
        }
        if !is_reached(cursor, self.last) {
            return false;
        }
        if !ascend(picks, cursor) {
            return false;
        }
        are_stored(&self.messages, picks)
    }

    /// Whether the consumer of the name can be sent a message.
    pub(crate) fn takes_delivery(&self, name: &Blob, entry: Pending, dseq: u64) -> bool
        ensures there { OnTrue result (CanSend self.now name.now entry dseq) }
    {
        if !is_stored(&self.messages, entry.seq) {
            return false;
        }
        one_takes_delivery(self.consumers.as_slice(), name, entry, dseq)
    }

    /// Whether a delivery of the sequence waits at the consumer of the name.
    pub(crate) fn takes_due(&self, name: &Blob, seq: u64) -> bool
        ensures there { OnTrue result (IsThere self.now.consumers name.now (HasPending seq)) }
    {
        one_takes_due(self.consumers.as_slice(), name, seq)
    }

    /// Adds a consumer to which nothing was sent.
    pub(crate) fn start(
        &mut self,
        alloc: Global,
        name: Blob,
        made: Moment,
        config: ConsumerConfig,
        cursor: u64,
        picks: &[u64],
    ) -> Result<(), NoMemory>
        requires valid { IsTrue (is_consumer_config config) }
        requires named { IsTrue (same config.name name) }
        requires start { IsStart self.old name cursor picks.now }
        ensures ok { OnOk result (with_made self.old (consumer_from name made config cursor picks.now) (by_name self.old.consumers name) ≡ Some self.new) }
        ensures keeps { OnOk result (KeepsStorable self.old self.new) }
    {
        // A moment is below 2^62.
        let _ = made.as_nanos();
        let new = ReplayedConsumer::start(alloc, name, made, config, cursor, picks)?;
        add_one(&mut self.consumers, new)
    }

    /// Takes out the consumer of a name.
    pub(crate) fn drop_consumer(&mut self, name: &Blob)
        requires there { IsThere self.old.consumers name.now (λ c. ⊤) }
        ensures value { without_consumer self.old (by_name self.old.consumers name.now) ≡ Some self.new }
        ensures keeps { KeepsStorable self.old self.new }
    {
        remove_one(&mut self.consumers, name);
    }

    /// Notes that a message was sent to the consumer of a name.
    pub(crate) fn deliver(&mut self, name: &Blob, entry: Pending, dseq: u64) -> Result<(), NoMemory>
        requires can { CanSend self.old name.now entry dseq }
        requires ordered { AreOrdered self.old.consumers }
        ensures ok { OnOk result (replaced self.old (delivered entry dseq (by_name self.old.consumers name.now)) ≡ Some self.new) }
        ensures keeps { OnOk result (KeepsStorable self.old self.new) }
    {
        deliver_one(self.consumers.as_mut_slice(), name, entry, dseq)
    }

    /// Ends the deliveries of a range of sequences at the consumer of a name, both ends too, and those that were given up.
    pub(crate) fn end(&mut self, name: &Blob, low: u64, high: u64)
        requires there { IsThere self.old.consumers name.now (λ c. ⊤) }
        requires ordered { AreOrdered self.old.consumers }
        ensures value { replaced self.old (acked low high (by_name self.old.consumers name.now)) ≡ Some self.new }
        ensures keeps { KeepsStorable self.old self.new }
    {
        end_one(self.consumers.as_mut_slice(), name, low, high);
    }

    /// Makes a delivery that waits at the consumer of a name due at another moment.
    pub(crate) fn set_due(&mut self, name: &Blob, seq: u64, due: Moment)
        requires there { IsThere self.old.consumers name.now (HasPending seq) }
        requires ordered { AreOrdered self.old.consumers }
        ensures value { replaced self.old (due_at seq due (by_name self.old.consumers name.now)) ≡ Some self.new }
        ensures keeps { KeepsStorable self.old self.new }
    {
        set_due_at_one(self.consumers.as_mut_slice(), name, seq, due);
    }

    /// Gives up what the consumer of a name was delivered as often as it may be and is due by a moment.
    pub(crate) fn give_up(&mut self, name: &Blob, moment: Moment)
        requires there { IsThere self.old.consumers name.now (λ c. ⊤) }
        requires ordered { AreOrdered self.old.consumers }
        ensures value { replaced self.old (given_up_by moment (by_name self.old.consumers name.now)) ≡ Some self.new }
        ensures keeps { KeepsStorable self.old self.new }
    {
        give_up_at_one(self.consumers.as_mut_slice(), name, moment);
    }
}
