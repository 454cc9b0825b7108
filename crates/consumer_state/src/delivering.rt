//! One delivery.

ghost use Rattle.std.specs.Prelude.{◌≡◌, ◌+◌, ◌<◌, ◌^◌, ◌++◌, ◌∷◌, [], IfOk, IfSome, OnOk, OnErr, is_some};
ghost use Rattle.std.specs.Option.{option_copied};
ghost use Rattle.js_model.specs.declared.stream.Message.{Message as Stored};
ghost use Rattle.js_model.specs.Streams.{sent_size, size};
ghost use Rattle.js_model.specs.Deliver.{address, count_of, fits, sent_to};
ghost use Rattle.consumer_texts.specs.Deliveries.{delivery_of};
ghost use Rattle.consumer_state.specs.Offering.{IsCurrent, IsNext};
ghost use Rattle.consumer_state.specs.Sending.{due_after, IsSendable};
ghost use Rattle.consumer_state.specs.Delivering.{demand_of, facts_of, front_demand, left_after, EndsSmall, IsReady, MayDeliver, MayEndNoWait, SendsOut};

use crate::consumer::Consumer;
use consumer_texts::{Sending, delivery_out, emptied, too_small};
use js_base::{Blob, List, Moment, NoMemory, Out, Outs};
use js_model::{Delivered, Message};
use std::mem;
use stream_view::View;

/// Who asks for a message.
#[derive(Clone, Copy)]
pub(crate) enum Demand {
    /// Who listens to a push consumer's subject, or the first pull.
    Asked,
    /// The first pull, which takes fewer bytes than the message has.
    TooSmall,
    Nobody,
}

impl Consumer {
    /// Makes one delivery at the stream's moment: `message`, that of the candidate, is sent, or the first pull that is too small for it ends; if there is no
    /// candidate, the first pull that does not wait ends. `undelivered` is how many messages are still to be delivered, and `listened` says whether somebody
    /// listens to a push consumer's deliver subject. `None` exactly if the consumer is not ready. An `Err` changes nothing and adds nothing. Where there is no
    /// candidate, its cost grows with how many pulls wait.
    pub fn deliver_next<W: View>(
        &mut self,
        stream: &W,
        listened: bool,
        message: Option<&Message>,
        undelivered: u64,
        outs: &mut Outs,
    ) -> Result<Option<Delivered>, NoMemory>
        requires current { IsCurrent (W.stream stream.now) self.old undelivered }
        requires next { IsNext (W.stream stream.now) self.old (option_copied message) }
        requires small { IfSome (option_copied message) (λ m. size m < 2 ^ 64) }
        ensures delivered { IfOk result (λ what. MayDeliver (W.stream stream.now) listened (option_copied message.entry) undelivered self.old what outs.old outs.new self.new) }
        ensures ready { IfOk result (λ what. IsReady (W.stream stream.now) listened self.old (is_some what)) }
        ensures err { OnErr result (self.new ≡ self.old) }
        ensures err_outs { OnErr result (outs.new ≡ outs.old) }
    {
        let Some(message) = message else {
            return self.end_no_wait(outs);
        };
        self.holds();
        let size = sent_size(message);
        match self.demand(listened, size) {
            Demand::Asked => {
                let name = &stream.config().name;
                Ok(Some(self.send(name, stream.moment(), message, undelivered, outs)?))
            }
            Demand::TooSmall => Ok(Some(self.end_small(size, stream.moment(), outs)?)),
            Demand::Nobody => Ok(None),
        }
    }

    /// Who asks for a message of this size.
    pub(crate) fn demand(&self, listened: bool, size: u64) -> Demand
        ensures value { result ≡ demand_of listened self.now size }
    {
        if self.is_push() {
            return if listened {
                Demand::Asked
            } else {
                Demand::Nobody
            };
        }
        match self.pulls.front() {
            Some(pull) if fits(size, pull.bytes) => Demand::Asked,
            Some(_) => Demand::TooSmall,
            None => Demand::Nobody,
        }
    }

    /// Ends the first pull that does not wait, if there is one, since there is nothing to deliver.
    fn end_no_wait(&mut self, outs: &mut Outs) -> Result<Option<Delivered>, NoMemory>
        ensures ended { IfOk result (λ what. MayEndNoWait self.old what outs.old outs.new self.new) }
        ensures err { OnErr result (self.new ≡ self.old) }
        ensures err_outs { OnErr result (outs.new ≡ outs.old) }
    {
        let Some(pull) = self.pulls.no_wait() else {
            return Ok(None);
        };
        outs.push(emptied(self.alloc, pull)?)?;
        self.pulls.end_no_wait();
        Ok(Some(Delivered::Emptied))
    }

    /// Ends the first pull, since it is too small for a message of this size.
    fn end_small(&mut self, size: u64, now: Moment, outs: &mut Outs) -> Result<Delivered, NoMemory>
        requires small { front_demand self.old.waiting size ≡ Demand.TooSmall }
        ensures ended { IfOk result (λ what. EndsSmall self.old what outs.old outs.new self.new) }
        ensures err { OnErr result (self.new ≡ self.old) }
        ensures err_outs { OnErr result (outs.new ≡ outs.old) }
    {
        let Some(pull) = self.pulls.front() else {
            return Ok(Delivered::TooSmall);
        };
        outs.push(too_small(self.alloc, pull)?)?;
        self.pulls.take_front(size, now);
        Ok(Delivered::TooSmall)
    }

    /// Sends a message at a moment. `undelivered` is how many messages are still to be delivered before.
    fn send(
        &mut self,
        stream: &Blob,
        now: Moment,
        message: &Message,
        undelivered: u64,
        outs: &mut Outs,
    ) -> Result<Delivered, NoMemory>
        requires sendable { IsSendable self.old message.now.seq (sent_size message.now) }
        requires small { size message.now < 2 ^ 64 }
        ensures sent { IfOk result (λ what. SendsOut stream.now now message.now undelivered self.old what outs.old outs.new self.new) }
        ensures err { OnErr result (self.new ≡ self.old) }
        ensures err_outs { OnErr result (outs.new ≡ outs.old) }
    {
        let count = self.next_count(message.seq);
        let dseq = self.progress.dseq() + 1;
        let out = self.delivery(stream, message, undelivered)?;
        let mut all = mem::replace(outs, List::new(self.alloc)).into_vec();
        let put = self.put_sent(&mut all, out, now, message);
        *outs = List::from_vec(all);
        put?;
        Ok(Delivered::Sent {
            seq: message.seq,
            count,
            dseq,
        })
    }

    /// The message that a delivery sends.
    fn delivery(&self, stream: &Blob, message: &Message, undelivered: u64) -> Result<Out, NoMemory>
        requires sendable { IsSendable self.now message.now.seq (sent_size message.now) }
        ensures value { IfOk result (λ out. out ≡ delivery_of (facts_of stream.now self.now message.now undelivered) (address self.now) message.now) }
    {
        let to = self.address()?;
        let told = Sending {
            stream,
            consumer: &self.name,
            count: self.next_count(message.seq),
            dseq: self.progress.dseq() + 1,
            left: self.left_after(message, undelivered),
        };
        delivery_out(self.alloc, &told, &to, message)
    }

    /// How often a message was delivered, with one more delivery.
    pub(crate) fn next_count(&self, seq: u64) -> u64
        ensures value { result ≡ count_of self.now seq + 1 }
    {
        self.holds();
        self.progress.count_of(seq) + 1
    }

    /// How many messages are still to be delivered after the message was sent.
    fn left_after(&self, message: &Message, undelivered: u64) -> u64
        ensures value { result ≡ left_after self.now message.now undelivered }
    {
        if self.awaits(message.subject.as_slice(), message.seq) {
            undelivered.saturating_sub(1)
        } else {
            undelivered
        }
    }

    /// Where a delivery goes: to the deliver subject, or to the first pull.
    fn address(&self) -> Result<Blob, NoMemory>
        ensures value { IfOk result (λ to. to ≡ address self.now) }
    {
        if self.is_push() {
            return Ok(self.config.deliver_subject.clone()?);
        }
        match self.pulls.front() {
            Some(pull) => Ok(pull.reply.clone()?),
            None => Ok(Blob::empty()),
        }
    }

    /// Adds what is sent, and notes the delivery.
    fn put_sent(
        &mut self,
        all: &mut Vec<Out>,
        out: Out,
        now: Moment,
        message: &Message,
    ) -> Result<(), NoMemory>
        requires sendable { IsSendable self.old message.now.seq (sent_size message.now) }
        requires small { size message.now < 2 ^ 64 }
        ensures ok { OnOk result (self.new ≡ sent_to now message.now self.old) }
        ensures outs { OnOk result (all.new.items ≡ all.old.items ++ out ∷ []) }
        ensures err { OnErr result (self.new ≡ self.old) }
        ensures err_outs { OnErr result (all.new.items ≡ all.old.items) }
    {
        all.reserve(1)?;
        self.note_sent(now, message.seq, sent_size(message))?;
        all.push_reserved(out);
        Ok(())
    }

    /// Notes that the message of a sequence, with so many bytes, was sent at a moment.
    pub(crate) fn note_sent(&mut self, now: Moment, seq: u64, size: u64) -> Result<(), NoMemory>
        requires sendable { IsSendable self.old seq size }
        ensures ok { OnOk result ((m : Stored) → m.seq ≡ seq → sent_size m ≡ size → self.new ≡ sent_to now m self.old) }
        ensures err { OnErr result (self.new ≡ self.old) }
    {
        let due = self.due_after(now);
        self.progress.sent(seq, due)?;
        if self.is_push() {
            self.mark = now;
        } else {
            self.pulls.take_front(size, now);
        }
        Ok(())
    }

    /// Until when a delivery of this moment waits for its acknowledgement, if it does.
    fn due_after(&self, now: Moment) -> Option<Moment>
        ensures value { result ≡ due_after now self.now }
    {
        if self.is_unacknowledged() {
            None
        } else {
            Some(now.plus(self.config.ack_wait))
        }
    }
}

/// The bytes of a message that are sent, and that count against a pull's `max_bytes`.
fn sent_size(message: &Message) -> u64
    requires small { size message.now < 2 ^ 64 }
    ensures value { result ≡ sent_size message.now }
{
    (message.size() - 40) as u64
}

/// Whether a pull that still takes so many bytes takes a message of this size.
fn fits(size: u64, bytes: Option<u64>) -> bool
    ensures value { result ≡ fits size bytes }
{
    match bytes {
        Some(limit) => size <= limit,
        None => true,
    }
}
