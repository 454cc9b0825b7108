//! What passing time does to a consumer and what it sends.

ghost use Rattle.std.specs.Prelude.{◌≡◌, ◌++◌, [], if◌then◌else◌, OnOk, OnErr};
ghost use Rattle.std.specs.List.{list_any};
ghost use Rattle.js_model.specs.Advance.{consumer_outs, is_spent, push_comes};
ghost use Rattle.js_model.specs.Streams.{is_push};
ghost use Rattle.timers.specs.Bounds.{IsTimerBound};
ghost use Rattle.timers.specs.Timers.{beat_timers, consumer_timers, later};
ghost use Rattle.consumer_progress.specs.GivingUp.{IsUnspent};
ghost use Rattle.consumer_state.specs.Passing.{passed};

use crate::consumer::Consumer;
use consumer_texts::push_beat;
use js_base::{Moment, NoMemory, Outs};
use timer_bounds::earlier;

impl Consumer {
    /// Adds what the consumer sends by a moment: the timeouts of the pulls that end, the heartbeats of the others, and its own. An `Err` adds none. It is
    /// called before `advance`.
    pub fn tell_advance(&self, now: Moment, outs: &mut Outs) -> Result<(), NoMemory>
        ensures ok { OnOk result (outs.new ≡ outs.old ++ consumer_outs now self.now) }
        ensures err { OnErr result (outs.new ≡ outs.old) }
    {
        if !self.is_push() {
            return self.pulls.tell(now, outs);
        }
        if self.push_comes(now) {
            outs.push(push_beat(
                self.alloc,
                &self.config.deliver_subject,
                self.progress.dseq(),
                self.progress.cursor(),
            )?)?;
        }
        Ok(())
    }

    /// Whether some delivery that is due at a moment was made as often as it may be: `advance` up to that moment gives it up.
    pub fn has_spent(&self, now: Moment) -> bool
        ensures value { result ≡ list_any (is_spent now self.now) self.now.pending }
    {
        self.progress.has_spent(now, self.config.max_deliver)
    }

    /// Lets time pass up to a moment: pulls end, heartbeats are marked, and the deliveries that were made as often as they may be are given up. It tells
    /// whether any delivery is given up now. It takes no memory. More than 65,536 may then be given up: call `overflow` until that gives `None`. What it
    /// costs grows with how many are given up now, and with how many pulls wait if one of them ends or a heartbeat comes. If a delivery became due since
    /// the last call, the next one that will is looked for, past stretches of deliveries that are all due or all not due yet.
    pub fn advance(&mut self, now: Moment) -> bool
        ensures value { self.new ≡ passed now self.old }
        ensures gave_up { result ≡ list_any (is_spent now self.old) self.old.pending }
        ensures unspent { IsUnspent now self.new.config.max_deliver self.new.pending }
    {
        let mark = self.mark_at(now);
        let waited = self.progress.ack_pending();
        self.progress.give_up(now, self.config.max_deliver);
        self.pulls.pass_time(now);
        self.mark = mark;
        self.progress.look_ahead(now);
        self.progress.ack_pending() < waited
    }

    /// A moment before which no pull ends, no heartbeat comes and no delivery becomes due, apart from what comes by `now`; `None` only if nothing more ever
    /// comes. After `advance` up to `now` it looks at no pull and at no delivery.
    pub fn next_timer(&self, now: Moment) -> Option<Moment>
        ensures bound { IsTimerBound (later now (consumer_timers self.now)) result }
    {
        let pulls = self.pulls.next_timer();
        let due = self.progress.next_timer(now);
        earlier(earlier(pulls, self.next_beat()), due)
    }

    /// When the next heartbeat of a push consumer comes.
    fn next_beat(&self) -> Option<Moment>
        ensures bound { IsTimerBound (if is_push self.now then beat_timers self.now.mark self.now.config.idle_heartbeat else []) result }
    {
        let heartbeat = self.config.idle_heartbeat;
        if self.is_push() && 0 < heartbeat {
            Some(self.mark.plus(heartbeat))
        } else {
            None
        }
    }

    /// The mark, with a heartbeat that has come by a moment.
    fn mark_at(&self, now: Moment) -> Moment
        ensures value { result ≡ (if push_comes now self.now then now else self.now.mark) }
    {
        if self.push_comes(now) { now } else { self.mark }
    }

    /// Whether a heartbeat of a push consumer has come.
    fn push_comes(&self, now: Moment) -> bool
        ensures value { result ≡ push_comes now self.now }
    {
        let heartbeat = self.config.idle_heartbeat;
        self.is_push() && 0 < heartbeat && self.mark.plus(heartbeat).as_nanos() <= now.as_nanos()
    }
}
