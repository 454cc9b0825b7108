//! Which message may be sent next, and whether something can be delivered.

ghost use Rattle.std.specs.Prelude.{◌≡◌, find, is_some};
ghost use Rattle.std.specs.List.{list_any};
ghost use Rattle.js_model.specs.Deliver.{may_wait};
ghost use Rattle.consumer_state.specs.Offering.{is_asked, onward, IsAmong, IsCurrent, IsOffer};
ghost use Rattle.consumer_state.specs.Delivering.{IsReady};

use crate::consumer::Consumer;
use consumer_start::next_taken;
use stream_view::View;

/// The greatest consumer sequence.
pub(crate) const LAST_SEQUENCE: u64 = (1 << 62) - 1;

/// How many deliveries may wait, if the configuration gives no limit.
pub(crate) const MAX_PENDING: u64 = 65_536;

impl Consumer {
    /// The sequence of some message that may be sent at the stream's moment; `None` exactly if there is none. `undelivered` is how many messages are still to
    /// be delivered. It goes through the messages from the cursor up to the next one that the filter matches.
    pub fn candidate<W: View>(&self, stream: &W, undelivered: u64) -> Option<u64>
        requires current { IsCurrent (W.stream stream.now) self.now undelivered }
        ensures offer { IsOffer (W.stream stream.now) self.now result }
    {
        if self.progress.dseq() >= LAST_SEQUENCE {
            return None;
        }
        match self.progress.due(stream.moment(), self.config.max_deliver) {
            Some(seq) => Some(seq),
            None => self.next(stream, undelivered),
        }
    }

    /// Whether something can be delivered at the stream's moment. `undelivered` is how many messages are still to be delivered, and `listened` says whether
    /// somebody listens to a push consumer's deliver subject. Where nobody asks, nothing is looked for; else it costs as much as
    /// `candidate`.
    pub fn is_ready<W: View>(&self, stream: &W, listened: bool, undelivered: u64) -> bool
        requires current { IsCurrent (W.stream stream.now) self.now undelivered }
        ensures value { IsReady (W.stream stream.now) listened self.now result }
    {
        self.holds();
        self.is_asked(listened)
            && (self.has_no_wait() || self.candidate(stream, undelivered).is_some())
    }

    /// Whether somebody asks: who listens to a push consumer's subject, or a pull.
    fn is_asked(&self, listened: bool) -> bool
        ensures value { result ≡ is_asked listened self.now }
    {
        if self.is_push() {
            listened
        } else {
            self.pulls.front().is_some()
        }
    }

    /// Whether some pull does not wait for messages.
    fn has_no_wait(&self) -> bool
        ensures value { result ≡ list_any (λ p. p.no_wait) self.now.waiting }
    {
        self.pulls.has_no_wait()
    }

    /// The first pick, or else the first message from the cursor on that the filter matches, if one more delivery may wait.
    fn next<W: View>(&self, stream: &W, undelivered: u64) -> Option<u64>
        requires current { IsCurrent (W.stream stream.now) self.now undelivered }
        ensures among { IsAmong (onward (W.stream stream.now) self.now) result }
    {
        if !self.may_wait() {
            return None;
        }
        match self.progress.first_pick() {
            Some(pick) => Some(pick),
            None if undelivered == 0 => None,
            None => next_taken(
                stream,
                self.config.filter_subject.as_slice(),
                self.progress.cursor(),
            ),
        }
    }

    /// Whether one more delivery may wait, by JetStream's `max_ack_pending`.
    fn may_wait(&self) -> bool
        ensures value { result ≡ may_wait self.now }
    {
        self.has_room(self.progress.ack_pending())
    }
}
