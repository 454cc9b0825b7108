//! Deliveries to one consumer of a stream.

ghost use Rattle.std.specs.Prelude.{◌≡◌, IfOk, OnErr};
ghost use Rattle.std.specs.Bool.{OnTrue};
ghost use Rattle.std.specs.Option.{option_copied};
ghost use Rattle.consumer_state.specs.Before.{current_of};
ghost use Rattle.consumer_state.specs.Delivering.{left_after, IsReady};
ghost use Rattle.consumer_state.specs.Offering.{IsCurrent, IsNext};
ghost use Rattle.stored_stream.specs.Stored.{IsSound};
ghost use Rattle.followed_stream.specs.Counting.{left_if_sent, left_then};
ghost use Rattle.followed_stream.specs.Handing.{DeliversFor};
ghost use Rattle.followed_stream.specs.Seen.{IsHeldIn};

use crate::follower::Follower;
use consumer_state::law_at;
use js_base::{Moment, NoMemory, Outs};
use js_model::{Delivered, Message};
use stored_stream::{LaterStream, StoredStream};

impl Follower {
    /// Whether something can be delivered at the stream's moment, if somebody listens to a push consumer's subject or nobody does.
    pub(crate) fn is_ready(&self, stored: &StoredStream, listened: bool) -> bool
        requires current { IsCurrent stored.now self.now.consumer self.now.undelivered }
        ensures value { IsReady stored.now listened self.now.consumer result }
    {
        self.consumer.is_ready(stored, listened, self.undelivered)
    }

    /// Whether something can be delivered once time has passed up to the moment at which the stream is seen. `whole` says that no message is too old by then.
    pub(crate) fn is_ready_in(
        &self,
        seen: &LaterStream<'_>,
        now: Moment,
        whole: bool,
        listened: bool,
    ) -> bool
        requires now { seen.now.moment ≡ now }
        requires whole { OnTrue whole (IsHeldIn seen.now self.now) }
        ensures value { IsReady seen.entry.now listened (current_of seen.entry.now self.now.consumer) result }
    {
        law_at();
        self.consumer.holds();
        if whole && self.consumer.is_at(now) {
            return self.consumer.is_ready(seen, listened, self.undelivered);
        }
        self.consumer.is_ready_by(seen, listened)
    }

    /// Makes one delivery at the stream's moment. `None` exactly if the consumer is not ready. An `Err` changes nothing and adds nothing.
    pub(crate) fn deliver(
        &mut self,
        stored: &StoredStream,
        listened: bool,
        outs: &mut Outs,
    ) -> Result<Option<Delivered>, NoMemory>
        requires sound { IsSound stored.now }
        requires current { IsCurrent stored.now self.old.consumer self.old.undelivered }
        ensures delivered { IfOk result (λ what. DeliversFor stored.now listened self.old what outs.old outs.new self.new) }
        ensures err { OnErr result (self.new ≡ self.old) }
        ensures err_outs { OnErr result (outs.new ≡ outs.old) }
    {
        self.consumer.holds();
        let message = self.next(stored);
        let left = self.left_if_sent(message);
        let count = self.undelivered;
        let what = self
            .consumer
            .deliver_next(stored, listened, message, count, outs)?;
        self.undelivered = left_then(what, left, count);
        Ok(what)
    }

    /// A message that may be sent next; `None` if there is none.
    fn next<'a>(&self, stored: &'a StoredStream) -> Option<&'a Message>
        requires current { IsCurrent stored.now self.now.consumer self.now.undelivered }
        ensures value { IsNext stored.now self.now.consumer (option_copied result) }
    {
        let seq = self.consumer.candidate(stored, self.undelivered)?;
        stored.get(seq)
    }

    /// How many messages are still to be delivered once this one is sent.
    fn left_if_sent(&self, message: Option<&Message>) -> u64
        ensures value { result ≡ left_if_sent self.now (option_copied message.entry) }
    {
        match message {
            Some(message) => self.left_without(message),
            None => self.undelivered,
        }
    }

    fn left_without(&self, message: &Message) -> u64
        ensures value { result ≡ left_after self.now.consumer message.now self.now.undelivered }
    {
        if self
            .consumer
            .awaits(message.subject.as_slice(), message.seq)
        {
            self.undelivered.saturating_sub(1)
        } else {
            self.undelivered
        }
    }
}

/// How many are still to be delivered after the delivery: so many if a message was sent, and else as many as before.
fn left_then(what: Option<Delivered>, sent: u64, count: u64) -> u64
    ensures value { result ≡ left_then what sent count }
{
    match what {
        Some(Delivered::Sent { .. }) => sent,
        Some(Delivered::TooSmall | Delivered::Emptied) | None => count,
    }
}
