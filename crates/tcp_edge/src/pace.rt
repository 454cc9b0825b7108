//! The pace of early answers.

ghost use Rattle.std.specs.Prelude.{◌≡◌, ◌+◌, ◌-◌, ◌↔◌, IsSome, IfSome, None};
ghost use Rattle.std.specs.Duration.{as_nanos};
ghost use Rattle.std.specs.Time.{instant_nanos, FitsClock};
ghost use Rattle.tcp_edge.specs.Pace.{until, ahead_after};

use std::rt::Clock;
use std::thread;
use std::time::{Duration, Instant};

/// Keeps early answers in a row down to a pace, beside a burst that may come at once. In any time T at most (T + burst) / apart of them come, and one
/// more.
#[derive(Drop)]
pub(crate) struct Pace {
    apart: Duration,
    burst: Duration,
    /// Until when the answers so far take up the time.
    taken_until: Option<Instant>,
}

impl Pace {
    /// A pace of one answer in the time `apart`, beside those that take up the time `burst`, of which none came yet.
    pub(crate) fn new(apart: Duration, burst: Duration) -> Pace
        ensures fresh { result ≡ record { apart = apart; burst = burst; taken_until = None } }
    {
        Pace {
            apart,
            burst,
            taken_until: None,
        }
    }

    /// The row ends: the next answer is the first of another.
    pub(crate) fn begin_anew(&mut self)
        ensures fresh { self.new ≡ record self.old { taken_until = None } }
    {
        self.taken_until = None;
    }

    /// How long an answer at this moment has to wait. `None`, which leaves all as it is, where the time that it takes up would end past the clock's range.
    fn delay(&mut self, now: Instant) -> Option<Duration>
        ensures variant { IsSome result ↔ FitsClock (instant_nanos now + ahead_after self.old now) }
        ensures delay { IfSome result (λ delay. as_nanos delay ≡ ahead_after self.old now - as_nanos self.old.burst) }
        ensures taken { IfSome result (λ _. until self.new.taken_until ≡ instant_nanos now + ahead_after self.old now) }
        ensures kept { self.new ≡ record self.old { taken_until = self.new.taken_until } }
    {
        let ahead = match self.taken_until {
            Some(until) => until.saturating_duration_since(now),
            None => Duration::ZERO,
        };
        let ahead = ahead.checked_add(self.apart)?;
        let until = now.checked_add(ahead)?;
        self.taken_until = Some(until);
        Some(ahead.saturating_sub(self.burst))
    }

    /// Waits until one more answer may come.
    pub(crate) fn wait<R: Clock>(&mut self, rt: &R) {
        let Ok(now) = Instant::now(rt) else {
            return;
        };
        match self.delay(now) {
            Some(delay) if !delay.is_zero() => thread::sleep(rt, delay),
            _ => {}
        }
    }
}
