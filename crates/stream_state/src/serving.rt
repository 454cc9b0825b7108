//! Time that passes for the consumers of a stream, and deliveries to them.

ghost use Rattle.std.specs.Prelude.{◌≡◌, ◌&&◌, ◌++◌, ◌<◌, ℕ, false, length, slice_get, IfOk, OnOk, OnErr};
ghost use Rattle.std.specs.List.{list_any};
ghost use Rattle.js_base.specs.Bytes.{same};
ghost use Rattle.js_model.specs.Advance.{advance, advance_outs};
ghost use Rattle.js_model.specs.Deliver.{is_listened};
ghost use Rattle.js_model.specs.Streams.{is_push};
ghost use Rattle.js_model.specs.Trim.{trim};
ghost use Rattle.followed_stream.specs.Delivering.{AreCurrent};
ghost use Rattle.followed_stream.specs.Handing.{MayHandAt};
ghost use Rattle.followed_stream.specs.Spans.{spans};
ghost use Rattle.stream_state.specs.Serving.{is_of_some, is_ready_if, FindsAmong, FindsReady, MayServe};

use crate::showing::is_push;
use crate::state::{StreamState, later};
use crate::telling::tell_all;
use followed_stream::{Follower, Span};
use js_base::{Blob, Moment, NoMemory, Outs};
use js_model::{Delivered, Delivery, Listening};
use stream_view::View;

impl StreamState {
    /// Adds what the consumers send by a moment, or by the stream's own if that is later. An `Err` adds nothing. It is called before `advance`.
    pub fn tell_advance(&self, now: Moment, outs: &mut Outs) -> Result<(), NoMemory>
        ensures ok { OnOk result (outs.new ≡ outs.old ++ advance_outs self.now now) }
        ensures err { OnErr result (outs.new ≡ outs.old) }
    {
        let now = later(self.stream.moment(), now);
        tell_all(self.alloc, self.stream.followers(), now, outs)
    }

    /// The place, in the order of names, of a consumer to whom something can be delivered once time has passed up to a moment, or up to the stream's own if
    /// that is later; `listening` are the names of the push consumers to whose deliver subjects somebody listens. The search goes round, and begins behind the
    /// consumer that was served last. It changes nothing, and takes no memory. It asks one consumer after the other; if messages become too old by then,
    /// deliveries are given up or pulls end, it goes through these and through what the consumer holds.
    pub fn next_ready(&self, now: Moment, listening: &Listening) -> Option<usize>
        ensures finds { FindsReady (advance self.now now) listening.now result }
    {
        let listening = listening.as_slice();
        let count = self.stream.followers().len();
        match self.ready_among(self.turn, count, now, listening) {
            Some(place) => Some(place),
            None => self.ready_among(0, self.turn, now, listening),
        }
    }

    /// The first of the places from one on and before another to whose consumer something can be delivered then.
    fn ready_among(&self, from: usize, end: usize, now: Moment, listening: &[Blob]) -> Option<usize>
        ensures finds { FindsAmong (advance self.now now) listening.now from end result }
    {
        for place in from..end {
            if self.is_ready(place, now, listening) {
                return Some(place);
            }
        }
        None
    }

    /// Whether something can be delivered to the consumer at a place then.
    fn is_ready(&self, place: usize, now: Moment, listening: &[Blob]) -> bool
        ensures value { result ≡ is_ready_if (advance self.now now) listening.now (slice_get (advance self.now now).consumers place) }
    {
        let Some(follower) = self.stream.followers().get(place) else {
            return false;
        };
        let now = later(self.stream.moment(), now);
        let heard = is_heard(follower, listening);
        self.stream.is_ready_by(place, now, heard)
    }

    /// Makes one delivery to the consumer at a place, at the stream's moment. `None` exactly if it is not ready. An `Err` changes nothing and adds nothing.
    /// Time has passed for the consumers up to that moment.
    pub fn deliver(
        &mut self,
        place: usize,
        listening: &Listening,
        outs: &mut Outs,
    ) -> Result<Option<Delivery>, NoMemory>
        requires current { AreCurrent self.old }
        ensures served { IfOk result (λ made. MayServe self.old place listening.now made outs.old outs.new self.new) }
        ensures settled { trim self.new ≡ self.new }
        ensures err { OnErr result (self.new ≡ self.old) }
        ensures err_outs { OnErr result (outs.new ≡ outs.old) }
    {
        let Some(follower) = self.stream.followers().get(place) else {
            return Ok(None);
        };
        let consumer = follower.name().clone()?;
        let heard = is_heard(follower, listening.as_slice());
        match self.hand(place, heard, outs)? {
            Some(what) => Ok(Some(Delivery { consumer, what })),
            None => Ok(None),
        }
    }

    /// The same, if it is known whether somebody listens to its deliver subject.
    fn hand(
        &mut self,
        place: usize,
        listened: bool,
        outs: &mut Outs,
    ) -> Result<Option<Delivered>, NoMemory>
        requires within { place < length self.old.consumers }
        requires current { AreCurrent self.old }
        ensures handed { IfOk result (λ what. MayHandAt self.old place listened what outs.old outs.new self.new) }
        ensures settled { trim self.new ≡ self.new }
        ensures err { OnErr result (self.new ≡ self.old) }
        ensures err_outs { OnErr result (outs.new ≡ outs.old) }
    {
        let what = self.stream.deliver(place, listened, outs)?;
        self.loose = self.loose.join(span_of(what));
        self.turn = place.saturating_add(1);
        Ok(what)
    }
}

/// That of the message that is sent, if one is.
fn span_of(what: Option<Delivered>) -> Span
    ensures outside { (seq : ℕ) → spans result seq ≡ false → is_of_some what seq ≡ false }
{
    match what {
        Some(what) => Span::of(what),
        None => Span::none(),
    }
}

/// Whether it is a push consumer to whose deliver subject somebody listens.
fn is_heard(follower: &Follower, listening: &[Blob]) -> bool
    ensures value { result ≡ (is_push follower.now.consumer && is_listened listening.now follower.now.consumer) }
{
    is_push(follower) && is_listened(listening, follower.name())
}

/// Whether this name is among those of the push consumers to whom somebody listens.
fn is_listened(listening: &[Blob], name: &Blob) -> bool
    ensures value { result ≡ list_any (λ n. same n name.now) listening.now }
{
    listening
        .iter()
        .any(|listened| listened.as_slice() == name.as_slice())
}
