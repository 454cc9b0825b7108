//! The delivery of a message that cannot be read.

ghost use Rattle.std.specs.Prelude.{◌≡◌, ◌+◌, IfOk, OnOk, OnErr, is_some};
ghost use Rattle.js_model.specs.declared.stream.Message.{Message};
ghost use Rattle.js_model.specs.declared.entry.Delivered.TheVariants.{Sent};
ghost use Rattle.js_model.specs.Counts.{pending_count};
ghost use Rattle.js_model.specs.Streams.{sent_size};
ghost use Rattle.js_model.specs.Deliver.{count_of, sent_to};
ghost use Rattle.consumer_state.specs.Offering.{IsCurrent};
ghost use Rattle.consumer_state.specs.Sending.{IsSendable};
ghost use Rattle.consumer_state.specs.Delivering.{front_demand, IsReady};
ghost use Rattle.consumer_state.specs.Unread.{EndsUnread, IsNextHead, MayDeliverUnread};

use crate::consumer::Consumer;
use crate::delivering::Demand;
use js_base::{Moment, NoMemory};
use js_model::Delivered;
use stream_view::{Head, View};

impl Consumer {
    /// Makes the delivery of `deliver_next`, at the stream's moment, where the candidate's header block and payload could not be read: what it would send is
    /// told to nobody. `head` is what is seen of the candidate. `None` exactly if the consumer is not ready. An `Err` changes nothing.
    pub fn deliver_unread<W: View>(
        &mut self,
        stream: &W,
        listened: bool,
        head: &Head<'_>,
    ) -> Result<Option<Delivered>, NoMemory>
        requires current { IsCurrent (W.stream stream.now) self.old (pending_count (W.stream stream.now) self.old) }
        requires next { IsNextHead (W.stream stream.now) self.old head.now }
        ensures delivered { IfOk result (λ what. MayDeliverUnread (W.stream stream.now) listened head.now self.old what self.new) }
        ensures ready { IfOk result (λ what. IsReady (W.stream stream.now) listened self.old (is_some what)) }
        ensures err { OnErr result (self.new ≡ self.old) }
    {
        self.holds();
        let now = stream.moment();
        let size = head.size - 40;
        match self.demand(listened, size) {
            Demand::Asked => Ok(Some(self.send_unread(head.seq, size, now)?)),
            Demand::TooSmall => Ok(Some(self.end_unread(size, now))),
            Demand::Nobody => Ok(None),
        }
    }

    /// Notes that the message of a sequence, with so many bytes, was sent at a moment, and tells the delivery.
    fn send_unread(&mut self, seq: u64, size: u64, now: Moment) -> Result<Delivered, NoMemory>
        requires sendable { IsSendable self.old seq size }
        ensures what { IfOk result (λ what. what ≡ Sent seq (count_of self.old seq + 1) (self.old.dseq + 1)) }
        ensures ok { OnOk result ((m : Message) → m.seq ≡ seq → sent_size m ≡ size → self.new ≡ sent_to now m self.old) }
        ensures err { OnErr result (self.new ≡ self.old) }
    {
        let count = self.next_count(seq);
        let dseq = self.progress.dseq() + 1;
        self.note_sent(now, seq, size)?;
        Ok(Delivered::Sent { seq, count, dseq })
    }

    /// Ends the first pull, since it is too small for a message of this size.
    fn end_unread(&mut self, size: u64, now: Moment) -> Delivered
        requires small { front_demand self.old.waiting size ≡ Demand.TooSmall }
        ensures ended { EndsUnread self.old result self.new }
    {
        self.pulls.take_front(size, now);
        Delivered::TooSmall
    }
}
