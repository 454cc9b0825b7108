//! One worker: its seats at the hub, its clock and its share of the links that are out.

ghost use Rattle.std.specs.Prelude.{◌≡◌, ◌<◌, ◌^◌, ◌||◌, Some, true};
ghost use Rattle.link_edge.specs.Reports.{IsFresh};
ghost use Rattle.session.specs.Host.{is_plain};
ghost use Rattle.workers.specs.Deeds.{ended_worn};
ghost use Rattle.workers.specs.Working.{HasLink, HasPass, IsIdle, Worked};

use crate::beginning::Beginning;
use crate::doorway::{Arrival, is_starved, is_worn};
use crate::lobby::Lobby;
use crate::ringing_desk::RingingDesk;
use link_edge::{Clock, Door, Gate, Link};
use place_engine::Place;
use session::{Ended, Limits, serve_link};
use shared_desk::{Hub, Pass};
use std::alloc::Global;
use std::sync::ledger::Share;
use std::sync::{Arc, Wait};
use tcp_edge::{Bell, Rings};

/// What all workers of a run have in common, beside their lobby.
#[derive(Drop)]
pub(crate) struct Workplace<'a, P: Place, G: Gate, W: Wait> {
    pub(crate) rt: &'a W,
    pub(crate) alloc: Global,
    pub(crate) hub: &'a Hub<P>,
    pub(crate) gate: &'a G,
    pub(crate) limits: &'a Limits,
}

/// What a worker does.
#[derive(Clone, Copy)]
pub(crate) enum Duty {
    /// It serves links, one at a time.
    Links,
    /// It lets time pass where timers fire.
    Timers,
}

/// A worker in a thread of its own.
pub(crate) struct Worker<P: Place, C: Clock, B: Beginning> {
    pub(crate) number: u32,
    pub(crate) duty: Duty,
    /// It is away while a call is made with it.
    pub(crate) pass: Option<Pass<P>>,
    pub(crate) clock: C,
    pub(crate) share: Share<B>,
    /// How many times it passed the gate, twice for each link.
    pub(crate) passed: u64,
    /// Whether a session ended for want of numbers.
    pub(crate) worn: bool,
    /// Whether a tick or a session found no memory.
    pub(crate) starved: bool,
}

/// The bell of a link, if it has one.
fn bell_of<L: Rings>(link: &L) -> Option<Arc<Bell>> {
    let bell = link.bell()?;
    Arc::try_clone(bell).ok()
}

impl<P: Place, C: Clock, B: Beginning> Worker<P, C, B> {
    /// Does its duty until no more links come.
    pub(crate) fn work<R: Door, G: Gate, W: Wait>(
        &mut self,
        place: &Workplace<'_, P, G, W>,
        lobby: &Lobby<'_, R, B>,
    )
    where
        R::Link: Rings,
        requires idle { IsIdle place.now.hub.now self.old.pass self.old.share.parts self.old.share.amount }
        requires limits { place.now.limits.now ≡ B.limits }
        requires input { place.now.limits.now.input < 2 ^ 62 }
        requires host { is_plain place.now.limits.now.host ≡ true }
        ensures idle { IsIdle place.now.hub.now self.new.pass self.new.share.parts self.new.share.amount }
        ensures worked { Worked B.limits self.old.pass self.new.pass self.old.worn self.new.worn }
    {
        match self.duty {
            Duty::Links => self.serve_links(place, lobby),
            Duty::Timers => self.keep_time(place, lobby),
        }
    }

    /// Serves link after link until no more come.
    fn serve_links<R: Door, G: Gate, W: Wait>(
        &mut self,
        place: &Workplace<'_, P, G, W>,
        lobby: &Lobby<'_, R, B>,
    )
    where
        R::Link: Rings,
        requires idle { IsIdle place.now.hub.now self.old.pass self.old.share.parts self.old.share.amount }
        requires limits { place.now.limits.now ≡ B.limits }
        requires input { place.now.limits.now.input < 2 ^ 62 }
        requires host { is_plain place.now.limits.now.host ≡ true }
        ensures idle { IsIdle place.now.hub.now self.new.pass self.new.share.parts self.new.share.amount }
        ensures worked { Worked B.limits self.old.pass self.new.pass self.old.worn self.new.worn }
    {
        for _ in place.rt.forever() {
            if !self.round(place, lobby) {
                return;
            }
        }
    }

    /// Serves the next link, if one comes. It answers whether more may come.
    fn round<R: Door, G: Gate, W: Wait>(
        &mut self,
        place: &Workplace<'_, P, G, W>,
        lobby: &Lobby<'_, R, B>,
    ) -> bool
    where
        R::Link: Rings,
        requires idle { IsIdle place.now.hub.now self.old.pass self.old.share.parts self.old.share.amount }
        requires limits { place.now.limits.now ≡ B.limits }
        requires input { place.now.limits.now.input < 2 ^ 62 }
        requires host { is_plain place.now.limits.now.host ≡ true }
        ensures idle { IsIdle place.now.hub.now self.new.pass self.new.share.parts self.new.share.amount }
        ensures worked { Worked B.limits self.old.pass self.new.pass self.old.worn self.new.worn }
    {
        match lobby.accept(place.rt, &mut self.share) {
            Arrival::Link(link) => {
                self.serve(place, lobby, link);
                true
            }
            Arrival::Nobody => true,
            Arrival::Starved => {
                self.starved = true;
                true
            }
            Arrival::Over => false,
        }
    }

    /// Serves a link over a desk with its pass, and gives it back.
    fn serve<R: Door, G: Gate, W: Wait>(
        &mut self,
        place: &Workplace<'_, P, G, W>,
        lobby: &Lobby<'_, R, B>,
        link: R::Link,
    )
    where
        R::Link: Rings,
        requires idle { HasLink place.now.hub.now self.old.pass self.old.share.parts self.old.share.amount }
        requires fresh { IsFresh (R.Link.answered link) (R.Link.given link) (R.Link.failings link) (R.Link.faults link) }
        requires limits { place.now.limits.now ≡ B.limits }
        requires input { place.now.limits.now.input < 2 ^ 62 }
        requires host { is_plain place.now.limits.now.host ≡ true }
        ensures idle { IsIdle place.now.hub.now self.new.pass self.new.share.parts self.new.share.amount }
        ensures worked { Worked B.limits self.old.pass self.new.pass self.old.worn self.new.worn }
    {
        let Some(pass) = self.pass.take() else {
            unreachable!()
        };
        let mut link = link;
        let bell = bell_of(&link);
        let mut desk = RingingDesk::new(
            place.rt,
            place.hub,
            pass,
            lobby.board(),
            self.number,
            bell,
        );
        place.gate.pass(self.number, self.passed);
        let ended = serve_link(
            place.alloc,
            &mut desk,
            &mut link,
            &mut self.clock,
            place.limits,
        );
        place.gate.pass(self.number, self.passed.saturating_add(1));
        self.passed = self.passed.saturating_add(2);
        self.pass = Some(desk.into_pass());
        lobby.take_back(place.rt, &mut self.share, link, ended);
        self.note(ended);
    }

    /// Notes how a session ended.
    fn note(&mut self, ended: Ended)
        ensures worn { self.new.worn ≡ (self.old.worn || ended_worn ended) }
        ensures kept { (self.new.pass ≡ self.old.pass) × (self.new.share ≡ self.old.share) }
    {
        self.worn |= is_worn(ended);
        self.starved |= is_starved(ended);
    }
}

impl<P: Place, C: Clock + Drop, B: Beginning> Worker<P, C, B> {
    /// Its pass, its share, whether a session ended for want of numbers, and whether memory was wanted.
    pub(crate) fn retire(self) -> (Pass<P>, Share<B>, bool, bool)
        requires pass { HasPass self.pass self.share.parts self.share.amount }
        ensures pass { self.pass ≡ Some result.0 }
        ensures share { result.1 ≡ self.share }
        ensures worn { result.2 ≡ self.worn }
    {
        let Worker {
            number: _,
            duty: _,
            pass,
            clock: _,
            share,
            passed: _,
            worn,
            starved,
        } = self;
        let Some(pass) = pass else { unreachable!() };
        (pass, share, worn, starved)
    }
}
