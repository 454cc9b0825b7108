//! What is asked of a consumer before time has passed for it.

ghost use Rattle.std.specs.Prelude.{◌≡◌, filter, length, not, [], if◌then◌else◌};
ghost use Rattle.std.specs.List.{list_any};
ghost use Rattle.js_base.specs.Bytes.{has, is_empty};
ghost use Rattle.js_model.specs.Advance.{consumer_at};
ghost use Rattle.js_model.specs.Deliver.{candidates, next_message};
ghost use Rattle.js_model.specs.Streams.{at_limit, below_limit, seqs};
ghost use Rattle.consumer_state.specs.Before.{current_of, has_room, is_again, is_at, stays, stored_picks};
ghost use Rattle.consumer_state.specs.Delivering.{IsReady};
ghost use Rattle.consumer_state.specs.Offering.{is_asked};

use crate::consumer::Consumer;
use crate::offering::{LAST_SEQUENCE, MAX_PENDING};
use consumer_start::next_taken;
use js_base::Moment;
use js_model::Pending;
use stream_view::View;

impl Consumer {
    /// Whether `advance` to a moment gives no delivery up and ends no pull. If it does neither, and the consumer holds stored messages alone, `is_ready` need
    /// not wait for it (`law_at`).
    pub fn is_at(&self, now: Moment) -> bool
        ensures value { result ≡ is_at now self.now }
    {
        !self.progress.has_spent(now, self.config.max_deliver) && !self.pulls.has_over(now)
    }

    /// Whether something can be delivered once time has passed up to the stream's moment, and all is forgotten whose message is gone. `listened` says whether
    /// somebody listens to a push consumer's deliver subject. It takes no memory. It goes through the deliveries that wait, the picks and the pulls, and
    /// through the messages from the cursor up to the next one that the filter matches.
    pub fn is_ready_by<W: View>(&self, stream: &W, listened: bool) -> bool
        ensures value { IsReady (W.stream stream.now) listened (current_of (W.stream stream.now) self.now) result }
    {
        self.holds();
        let now = stream.moment();
        self.is_asked_by(now, listened)
            && (self.pulls.has_running_no_wait(now) || self.has_candidate_by(stream))
    }

    /// Whether somebody asks at the moment: who listens to a push consumer's subject, or a pull that goes on.
    fn is_asked_by(&self, now: Moment, listened: bool) -> bool
        ensures value { result ≡ is_asked listened (consumer_at now self.now) }
    {
        if self.is_push() {
            listened
        } else {
            self.pulls.has_running(now)
        }
    }

    /// Whether there is a message that may be sent.
    fn has_candidate_by<W: View>(&self, stream: &W) -> bool
        ensures value { result ≡ not (is_empty (candidates (W.stream stream.now) (current_of (W.stream stream.now) self.now))) }
    {
        if self.progress.dseq() >= LAST_SEQUENCE {
            return false;
        }
        self.has_again(stream)
            || (self.has_room(self.count_staying(stream)) && self.has_next_by(stream))
    }

    /// Whether some delivery is due again whose message is stored.
    fn has_again<W: View>(&self, stream: &W) -> bool
        ensures value { result ≡ list_any (is_again (W.stream stream.now) self.now) self.now.pending }
    {
        self.holds();
        let cursor = self.progress.cursor();
        let mut from = 0;
        while from < cursor {
            let Some(entry) = self.progress.waiting_from(from) else {
                return false;
            };
            if self.is_again(stream, &entry) {
                return true;
            }
            from = entry.seq + 1;
        }
        false
    }

    fn is_again<W: View>(&self, stream: &W, entry: &Pending) -> bool
        ensures value { result ≡ is_again (W.stream stream.now) self.now entry.now }
    {
        is_stored(stream, entry.seq)
            && entry.due.as_nanos() <= stream.moment().as_nanos()
            && below_limit(entry.count, self.config.max_deliver)
    }

    /// How many deliveries go on to wait.
    fn count_staying<W: View>(&self, stream: &W) -> u64
        ensures value { result ≡ length (filter (stays (W.stream stream.now) self.now) self.now.pending) }
    {
        self.holds();
        let cursor = self.progress.cursor();
        let mut count = 0;
        let mut from = 0;
        while from < cursor {
            let Some(entry) = self.progress.waiting_from(from) else {
                return count;
            };
            count += self.weight(stream, &entry);
            from = entry.seq + 1;
        }
        count
    }

    /// 1 for a delivery that goes on to wait, else 0.
    fn weight<W: View>(&self, stream: &W, entry: &Pending) -> u64
        ensures value { result ≡ (if stays (W.stream stream.now) self.now entry.now then 1 else 0) }
    {
        if self.stays(stream, entry) { 1 } else { 0 }
    }

    fn stays<W: View>(&self, stream: &W, entry: &Pending) -> bool
        ensures value { result ≡ stays (W.stream stream.now) self.now entry.now }
    {
        let is_spent = entry.due.as_nanos() <= stream.moment().as_nanos()
            && at_limit(entry.count, self.config.max_deliver);
        is_stored(stream, entry.seq) && !is_spent
    }

    /// Whether one more delivery may wait beside so many, by JetStream's `max_ack_pending`.
    pub(crate) fn has_room(&self, count: u64) -> bool
        ensures value { result ≡ has_room self.now count }
    {
        self.is_unacknowledged() || count < self.config.max_ack_pending.unwrap_or(MAX_PENDING)
    }

    /// Whether there is a stored pick, or else a message from the cursor on that the filter matches.
    fn has_next_by<W: View>(&self, stream: &W) -> bool
        ensures value { result ≡ not (is_empty (next_message (stored_picks (W.stream stream.now) self.now) (W.stream stream.now) self.now)) }
    {
        self.has_stored_pick(stream) || self.has_taken(stream)
    }

    /// Whether the filter matches a message from the cursor on.
    fn has_taken<W: View>(&self, stream: &W) -> bool
        ensures value { result ≡ not (is_empty (next_message [] (W.stream stream.now) self.now)) }
    {
        let filter = self.config.filter_subject.as_slice();
        next_taken(stream, filter, self.progress.cursor()).is_some()
    }

    /// Whether some pick is stored.
    fn has_stored_pick<W: View>(&self, stream: &W) -> bool
        ensures value { result ≡ list_any (has (seqs (W.stream stream.now).messages)) self.now.picks }
    {
        self.holds();
        let cursor = self.progress.cursor();
        let mut from = 0;
        while from < cursor {
            let Some(pick) = self.progress.pick_from(from) else {
                return false;
            };
            if is_stored(stream, pick) {
                return true;
            }
            from = pick + 1;
        }
        false
    }
}

/// Whether there is a message of this sequence.
fn is_stored<W: View>(stream: &W, seq: u64) -> bool
    ensures value { result ≡ has (seqs (W.stream stream.now).messages) seq }
{
    let _last = stream.last();
    match stream.at_or_after(seq) {
        Some(head) => head.seq == seq,
        None => false,
    }
}

/// Whether the count is below the limit, if there is one.
fn below_limit(count: u64, most: Option<u64>) -> bool
    ensures value { result ≡ below_limit count most }
{
    match most {
        Some(most) => count < most,
        None => true,
    }
}

/// Whether the count is the limit, if there is one.
fn at_limit(count: u64, most: Option<u64>) -> bool
    ensures value { result ≡ at_limit count most }
{
    match most {
        Some(most) => count == most,
        None => false,
    }
}
