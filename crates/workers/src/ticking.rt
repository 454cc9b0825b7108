//! The worker that lets time pass: it waits for no link, and enters a place's turn only where it is due.

ghost use Rattle.std.specs.Prelude.{◌≡◌, true};
ghost use Rattle.workers.specs.Working.{IsIdle, Worked};

use crate::beginning::Beginning;
use crate::lobby::Lobby;
use crate::ringing_desk::RingingDesk;
use crate::worker::{Worker, Workplace};
use js_api::{Desk, DeskFault};
use js_base::Moment;
use link_edge::{Clock, Door, Gate};
use place_engine::Place;
use std::sync::Wait;
use std::time::Duration;

/// How many milliseconds it rests between two looks at the timers.
const REST_MS: u64 = 20;

impl<P: Place, C: Clock, B: Beginning> Worker<P, C, B> {
    /// Lets time pass wherever it is due, until no more links come.
    pub(crate) fn keep_time<R: Door, G: Gate, W: Wait>(
        &mut self,
        place: &Workplace<'_, P, G, W>,
        lobby: &Lobby<'_, R, B>,
    )
        requires idle { IsIdle place.now.hub.now self.old.pass self.old.share.parts self.old.share.amount }
        ensures idle { IsIdle place.now.hub.now self.new.pass self.new.share.parts self.new.share.amount }
        ensures worked { Worked B.limits self.old.pass self.new.pass self.old.worn self.new.worn }
    {
        for _ in place.rt.forever() {
            if lobby.is_over() {
                return;
            }
            self.tick_all(place, lobby);
            lobby.rest(place.rt, Duration::from_millis(REST_MS));
        }
    }

    /// Lets time pass at each place where it is due.
    fn tick_all<R: Door, G: Gate, W: Wait>(
        &mut self,
        place: &Workplace<'_, P, G, W>,
        lobby: &Lobby<'_, R, B>,
    )
        requires idle { IsIdle place.now.hub.now self.old.pass self.old.share.parts self.old.share.amount }
        ensures idle { IsIdle place.now.hub.now self.new.pass self.new.share.parts self.new.share.amount }
        ensures worked { Worked B.limits self.old.pass self.new.pass self.old.worn self.new.worn }
    {
        let now = self.clock.now();
        for at in 0..place.hub.places() {
            if place.hub.is_due(at, now) {
                self.tick(place, lobby, at, now);
            }
        }
    }

    /// Lets time pass at a place, if there is a stream.
    fn tick<R: Door, G: Gate, W: Wait>(
        &mut self,
        place: &Workplace<'_, P, G, W>,
        lobby: &Lobby<'_, R, B>,
        at: u32,
        now: Moment,
    )
        requires idle { IsIdle place.now.hub.now self.old.pass self.old.share.parts self.old.share.amount }
        ensures idle { IsIdle place.now.hub.now self.new.pass self.new.share.parts self.new.share.amount }
        ensures worked { Worked B.limits self.old.pass self.new.pass self.old.worn self.new.worn }
    {
        let Some(pass) = self.pass.take() else {
            unreachable!()
        };
        let mut desk = RingingDesk::new(
            place.rt,
            place.hub,
            pass,
            lobby.board(),
            self.number,
            None,
        );
        desk.aim(at);
        let ticked = desk.tick(now);
        self.pass = Some(desk.into_pass());
        self.note_tick(ticked);
    }

    /// Notes how a tick ended.
    fn note_tick(&mut self, ticked: Result<(), DeskFault>)
        ensures kept { (self.new.pass ≡ self.old.pass) × (self.new.share ≡ self.old.share) × (self.new.worn ≡ self.old.worn) }
    {
        match ticked {
            Err(DeskFault::NoMemory) => self.starved = true,
            Ok(()) | Err(DeskFault::Worn(_) | DeskFault::TooManySubs | DeskFault::NoSession(_)) =>
                {}
        }
    }
}
