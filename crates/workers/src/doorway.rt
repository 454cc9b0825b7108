//! The door as the workers of a run share it.

ghost use Rattle.std.specs.Prelude.{◌≡◌, ◌<◌, ◌+◌, ◌-◌, IfSome, is_none, option_map};
ghost use Rattle.link_edge.specs.Reports.{IsFresh};
ghost use Rattle.workers.specs.Arriving.{IfArrived, arrived_links};
ghost use Rattle.workers.specs.Deeds.{ended_worn};
ghost use Rattle.workers.specs.Links.{HasSession};
ghost use Rattle.workers.specs.Serving.{IsDoorway};
ghost use Rattle.workers.specs.Sessions.{ended_starved};

use crate::beginning::Beginning;
use link_edge::{Accept, Door};
use session::{Ended, Refusal};
use std::marker::Model;
use std::sync::ledger::{Book, Share};

/// Why no more links come.
#[derive(Clone, Copy, Debug, PartialEq, Eq)]
pub enum Stop {
    /// The door was closed.
    Closed,
    /// As many links were accepted as were to be.
    Full,
    /// The door failed.
    Failed,
}

/// What comes of an accept.
pub(crate) enum Arrival<L> {
    Link(L),
    /// None came for a while.
    Nobody,
    /// There was no memory for it.
    Starved,
    /// No more come.
    Over,
}

/// A door, and what came of it since the run began. It can't be dropped: `into_parts` ends it.
pub(crate) struct Doorway<R: Door, B: Beginning> {
    door: R,
    /// How many more links it may give out, if there is a limit.
    left: Option<u64>,
    stop: Option<Stop>,
    /// Whether a session ended for want of numbers.
    worn: bool,
    /// Whether an accept or a session found no memory.
    starved: bool,
    /// The links that are out.
    out: Book<B>,
}

impl<R: Door, B: Beginning> Model for Doorway<R, B> {
    ghost use Rattle.workers.specs.Serving.{DoorwayView, IsDoorway};

    ghost Value = { DoorwayView };

    ghost view = { λ d. record {
      door = record { answered = R.answered d.door; gave = R.gave d.door; back = R.back d.door; faults = R.faults d.door };
      left = d.left;
      stop = d.stop;
      worn = d.worn;
      starved = d.starved;
      out = d.out.total;
    } };

    ghost invariant = { λ d. IsDoorway B.begun B.limits B.accepts (record {
      door = record { answered = R.answered d.door; gave = R.gave d.door; back = R.back d.door; faults = R.faults d.door };
      left = d.left;
      stop = d.stop;
      worn = d.worn;
      starved = d.starved;
      out = d.out.total;
    }) };
}

/// One link fewer may be given out, if there is a limit.
fn one_less(left: Option<u64>) -> Option<u64>
    requires some { IfSome left (λ n. 0 < n) }
    ensures less { result ≡ option_map (λ n. n - 1) left }
{
    Some(left? - 1)
}

/// Whether a session ended so for want of numbers.
pub(crate) fn is_worn(ended: Ended) -> bool
    ensures value { result ≡ ended_worn ended }
{
    matches!(ended, Ended::Refused(Refusal::NumbersUsed))
}

/// Whether a session ended so for want of memory.
pub(crate) fn is_starved(ended: Ended) -> bool
    ensures value { result ≡ ended_starved ended }
{
    matches!(ended, Ended::NoMemory)
}

impl<R: Door, B: Beginning> Doorway<R, B> {
    /// A door that gave out no link yet since the run began.
    pub(crate) fn new(door: R, accepts: Option<u64>, out: Book<B>) -> Doorway<R, B>
        requires begun { B.begun ≡ record { answered = R.answered door; gave = R.gave door; back = R.back door; faults = R.faults door } }
        requires accepts { B.accepts ≡ accepts }
        requires none { out.total ≡ 0 }
    {
        Doorway {
            door,
            left: accepts,
            stop: None,
            worn: false,
            starved: false,
            out,
        }
    }

    /// Accepts a link, unless no more come. It waits as long as the door does.
    pub(crate) fn accept(&mut self, mine: &mut Share<B>) -> Arrival<R::Link>
        requires part { 0 < mine.old.parts }
        ensures fresh { IfArrived result (λ link. IsFresh (R.Link.answered link) (R.Link.given link) (R.Link.failings link) (R.Link.faults link)) }
        ensures amount { mine.new.amount ≡ mine.old.amount + arrived_links result }
        ensures parts { mine.new.parts ≡ mine.old.parts }
    {
        if self.stop.is_some() {
            return Arrival::Over;
        }
        if self.left == Some(0) {
            self.stop = Some(Stop::Full);
            return Arrival::Over;
        }
        match self.door.accept() {
            Accept::Got(link) => {
                self.left = one_less(self.left);
                self.out.add(mine, 1);
                Arrival::Link(link)
            }
            Accept::Quiet => Arrival::Nobody,
            Accept::Closed => {
                self.stop = Some(Stop::Closed);
                Arrival::Over
            }
            Accept::Failed => {
                self.stop = Some(Stop::Failed);
                Arrival::Over
            }
            Accept::NoMemory => {
                self.starved = true;
                Arrival::Starved
            }
        }
    }

    /// Takes back a link that was served, and notes how its session ended.
    pub(crate) fn take_back(&mut self, mine: &mut Share<B>, link: R::Link, ended: Ended)
        requires one { mine.old.amount ≡ 1 }
        requires served { HasSession B.limits (record { answered = R.Link.answered link; given = R.Link.given link; failings = R.Link.failings link; faults = R.Link.faults link }) ended }
        ensures amount { mine.new.amount ≡ 0 }
        ensures parts { mine.new.parts ≡ mine.old.parts }
    {
        self.out.audit(mine);
        self.door.done(link);
        self.out.sub(mine, 1);
        self.worn |= is_worn(ended);
        self.starved |= is_starved(ended);
    }

    /// Whether more links may come.
    pub(crate) fn is_open(&self) -> bool
        ensures value { result ≡ is_none self.now.stop }
    {
        self.stop.is_none()
    }

    /// Shows, to whoever has all shares, that as many links are out as they say.
    pub(crate) fn audit(&mut self, all: &mut Share<B>)
        requires all { all.old.parts ≡ B.parts }
        ensures out { self.new.out ≡ all.old.amount }
        ensures same { self.new ≡ self.old }
        ensures amount { all.new.amount ≡ all.old.amount }
        ensures parts { all.new.parts ≡ all.old.parts }
    {
        self.out.audit(all);
    }

    /// The door, why it stopped, whether a session ended for want of numbers, and whether memory was wanted.
    pub(crate) fn into_parts(self) -> (R, Option<Stop>, bool, bool)
        ensures door { self.door ≡ record { answered = R.answered result.0; gave = R.gave result.0; back = R.back result.0; faults = R.faults result.0 } }
        ensures stop { result.1 ≡ self.stop }
        ensures worn { result.2 ≡ self.worn }
        ensures starved { result.3 ≡ self.starved }
        ensures is { IsDoorway B.begun B.limits B.accepts self }
    {
        let Doorway {
            door,
            left: _,
            stop,
            worn,
            starved,
            out: _,
        } = self;
        (door, stop, worn, starved)
    }
}
