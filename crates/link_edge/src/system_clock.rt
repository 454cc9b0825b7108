//! The clock of the system.

ghost use Rattle.std.specs.Prelude.{◌≡◌, None, IfOk};

use crate::clock::Clock;
use js_base::{Moment, NoMemory};
use std::marker::Model;
use std::rt;
use std::time::{Instant, SystemTime, UNIX_EPOCH};

/// The clock of the system: the wall clock as it began, and from there on the time that passes, so that it neither goes back nor jumps when somebody sets the
/// wall clock. If the system tells no time, or one that is no moment, that is counted, and the last moment stays, which at first is the beginning of 1970.
#[derive(Drop)]
pub struct SystemClock<R: rt::Clock + Clone + Drop> {
    rt: R,
    /// Where it began, once the system told that.
    start: Option<Start>,
    last: Moment,
    faults: u64,
}

impl<R: rt::Clock + Clone + Drop> Model for SystemClock<R> {
    ghost use Rattle.link_edge.specs.SystemClock.{ClockState};

    ghost Value = { ClockState };

    ghost view = { λ s. record { last = s.last; faults = s.faults } };
}

impl<R: rt::Clock + Clone + Drop> SystemClock<R> {
    /// A clock that begins now. If the system tells no time yet, it begins with the first moment that is read of it.
    pub fn new(rt: R) -> SystemClock<R>
        ensures fresh { result ≡ record { last = 0; faults = 0 } }
    {
        let start = Start::read(&rt);
        SystemClock {
            rt,
            start,
            last: Moment::of(0).unwrap(),
            faults: 0,
        }
    }

    /// How often the system failed to give a moment. The count stops at the greatest number of its type.
    pub fn faults(&self) -> u64
        ensures value { result ≡ self.now.faults }
    {
        self.faults
    }
}

/// What the system told as a clock began.
#[derive(Clone, Copy)]
struct Start {
    /// By the wall clock.
    moment: Moment,
    /// By the clock that nobody sets.
    instant: Instant,
}

impl Start {
    /// What the system tells now, if it tells both.
    fn read<R: rt::Clock>(rt: &R) -> Option<Start> {
        let since = SystemTime::now(rt).ok()?.duration_since(UNIX_EPOCH).ok()?;
        Some(Start {
            moment: Moment::of(u64::try_from(since.as_nanos()).ok()?)?,
            instant: Instant::now(rt).ok()?,
        })
    }

    /// The moment that it is by now, if the system tells how much time has passed since.
    fn now<R: rt::Clock>(self, rt: &R) -> Option<Moment> {
        let passed = self.instant.elapsed(rt).ok()?;
        let nanos = u64::try_from(passed.as_nanos()).ok()?;
        Moment::of(self.moment.as_nanos().checked_add(nanos)?)
    }
}

impl<R: rt::Clock + Clone + Drop> Clock for SystemClock<R> {
    ghost use Rattle.link_edge.specs.SystemClock.{Tells};

    ghost to_come = { λ _. None };

    /// It is never earlier than the last one.
    fn now(&mut self) -> Moment
        ensures told { Tells self.old result self.new }
    {
        if self.start.is_none() {
            self.start = Start::read(&self.rt);
        }
        match self.start.and_then(|start| start.now(&self.rt)) {
            Some(moment) => self.last = self.last.max(moment),
            None => self.faults = self.faults.saturating_add(1),
        }
        self.last
    }

    /// A clock over the same system with the same start, which has counted no fault.
    fn twin(&self) -> Result<SystemClock<R>, NoMemory>
        ensures twin { IfOk result (λ twin. twin ≡ record { last = self.now.last; faults = 0 }) }
    {
        let rt = self.rt.clone()?;
        Ok(SystemClock {
            rt,
            start: self.start,
            last: self.last,
            faults: 0,
        })
    }
}
