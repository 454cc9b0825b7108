//! What the workers of a run share beside the hub.

ghost use Rattle.std.specs.Prelude.{◌≡◌, ◌<◌, ◌+◌};
ghost use Rattle.link_edge.specs.Reports.{IsFresh};
ghost use Rattle.workers.specs.Arriving.{IfArrived, arrived_links};
ghost use Rattle.workers.specs.Links.{HasSession};

use crate::beginning::Beginning;
use crate::board::Board;
use crate::doorway::{Arrival, Doorway};
use link_edge::Door;
use session::Ended;
use std::sync::atomic::{AtomicU64, Ordering};
use std::sync::ledger::Share;
use std::sync::{Mutex, Wait};
use std::time::Duration;

/// The door behind a lock, and the bells of the links that are being served.
pub(crate) struct Lobby<'a, R: Door, B: Beginning> {
    /// Held by the one worker that accepts, so that a worker that gives a link back waits behind one accept at most.
    entrance: Mutex<()>,
    doorway: Mutex<Doorway<R, B>>,
    board: &'a Board,
    /// 1 once no more links come.
    over: AtomicU64,
}

impl<'a, R: Door, B: Beginning> Lobby<'a, R, B> {
    /// A lobby with nobody in it.
    pub(crate) fn new(doorway: Doorway<R, B>, board: &'a Board) -> Lobby<'a, R, B> {
        Lobby {
            entrance: Mutex::new(()),
            doorway: Mutex::new(doorway),
            board,
            over: AtomicU64::new(0),
        }
    }

    /// The bells of the links that are being served.
    pub(crate) fn board(&self) -> &'a Board {
        self.board
    }

    /// Accepts a link, unless no more come.
    pub(crate) fn accept<W: Wait>(&self, rt: &W, mine: &mut Share<B>) -> Arrival<R::Link>
        requires part { 0 < mine.old.parts }
        ensures fresh { IfArrived result (λ link. IsFresh (R.Link.answered link) (R.Link.given link) (R.Link.failings link) (R.Link.faults link)) }
        ensures amount { mine.new.amount ≡ mine.old.amount + arrived_links result }
        ensures parts { mine.new.parts ≡ mine.old.parts }
    {
        let _turn = self.entrance.lock(rt);
        let arrival = self.doorway.lock(rt).accept(mine);
        if matches!(&arrival, Arrival::Over) {
            self.end();
        }
        arrival
    }

    /// No more links come. Whoever rests is woken.
    fn end(&self) {
        self.over.store(1, Ordering::SeqCst);
        self.over.wake_all();
    }

    /// Whether no more links come, as far as a worker has seen. It waits for nobody.
    pub(crate) fn is_over(&self) -> bool {
        self.over.load(Ordering::SeqCst) != 0
    }

    /// Waits for a while, or until no more links come.
    pub(crate) fn rest<W: Wait>(&self, rt: &W, span: Duration) {
        self.over.park_timeout(rt, 0, span);
    }

    /// Takes back a link that was served.
    pub(crate) fn take_back<W: Wait>(
        &self,
        rt: &W,
        mine: &mut Share<B>,
        link: R::Link,
        ended: Ended,
    )
        requires one { mine.old.amount ≡ 1 }
        requires served { HasSession B.limits (record { answered = R.Link.answered link; given = R.Link.given link; failings = R.Link.failings link; faults = R.Link.faults link }) ended }
        ensures amount { mine.new.amount ≡ 0 }
        ensures parts { mine.new.parts ≡ mine.old.parts }
    {
        self.doorway.lock(rt).take_back(mine, link, ended);
    }

    /// The door, once everybody has left.
    pub(crate) fn into_doorway(self) -> Doorway<R, B> {
        let Lobby {
            entrance: _,
            doorway,
            board: _,
            over: _,
        } = self;
        doorway.into_inner()
    }
}
