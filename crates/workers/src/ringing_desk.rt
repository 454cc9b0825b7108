//! A desk of a hub that ends the waits of those for whom its calls left something.

ghost use Rattle.std.specs.Prelude.{◌≡◌};
ghost use Rattle.js_api.specs.Clients.{closed, new_client};
ghost use Rattle.hub_fronts.proofs.Seen.{made_more, made_nothing};
ghost use Rattle.shared_desk.specs.Desks.{HubDeskMade, frames_left};
ghost use Rattle.shared_desk.specs.Passes.{IsPassOf};
ghost use Rattle.std.proofs.Common.{refl, ◌∙◌};

use crate::board::{Board, Hung};
use js_api::{Desk, DeskFault};
use js_base::{Moment, Out};
use js_model::{Collected, Taken};
use place_engine::Place;
use shared_desk::{Hub, HubDesk, Pass};
use std::sync::{Arc, Wait};
use tcp_edge::Bell;

/// The desk of a caller, whose session's link may have a bell. After each call that may have handed others messages, their bells ring. It can't be
/// dropped: `into_pass` ends it.
pub(crate) struct RingingDesk<'a, P: Place, W: Wait> {
    desk: HubDesk<'a, P, W>,
    rt: &'a W,
    hub: &'a Hub<P>,
    board: &'a Board,
    /// The number of its worker, at whose place its bell hangs.
    worker: u32,
    /// The bell of its own link, if it has one that does not hang yet.
    bell: Option<Arc<Bell>>,
}

impl<'a, P: Place, W: Wait> RingingDesk<'a, P, W> {
    /// The desk of a caller with this pass of the hub.
    pub(crate) fn new(
        rt: &'a W,
        hub: &'a Hub<P>,
        pass: Pass<P>,
        board: &'a Board,
        worker: u32,
        bell: Option<Arc<Bell>>,
    ) -> RingingDesk<'a, P, W>
        requires own { IsPassOf hub.now pass }
        ensures hub { result.desk.hub ≡ hub.now }
        ensures scene { result.desk.scene ≡ pass }
        ensures client { result.desk.client ≡ closed (new_client 0) }
    {
        RingingDesk {
            desk: hub.desk(rt, pass),
            rt,
            hub,
            board,
            worker,
            bell,
        }
    }

    /// Its pass.
    pub(crate) fn into_pass(self) -> Pass<P>
        ensures scene { result ≡ self.entry.desk.scene }
        ensures own { IsPassOf self.entry.desk.hub result }
    {
        let RingingDesk {
            desk,
            rt: _,
            hub: _,
            board: _,
            worker: _,
            bell: _,
        } = self;
        desk.into_pass()
    }

    /// The next tick goes to this place, if there is a stream, and else to the next one behind it.
    pub(crate) fn aim(&mut self, place: u32)
        ensures same { self.new ≡ self.old }
    {
        self.desk.aim(place);
    }

    /// Rings for those who were handed messages, but not for its own session, which looks for itself.
    fn ring(&self) {
        self.board
            .ring(self.rt, self.hub.take_roused(), self.worker);
    }
}

impl<'a, P: Place, W: Wait> Desk for RingingDesk<'a, P, W> {
    ghost client = { λ d. d.desk.client };

    ghost made = { λ old entries new. HubDeskMade old.desk entries new.desk };

    ghost left = { λ d. frames_left d.desk };

    fn open(&mut self) -> Result<u64, DeskFault> {
        let opened = self.desk.open();
        if let (Ok(session), Some(bell)) = (opened, self.bell.take()) {
            let hung = Hung { session, bell };
            self.board.hang(self.rt, self.worker, Some(hung));
        }
        opened
    }

    fn options(&mut self, echo: bool, headers: bool, no_responders: bool) -> Result<(), DeskFault> {
        self.desk.options(echo, headers, no_responders)
    }

    fn sub(&mut self, subject: &[u8], queue: Option<&[u8]>, sid: &[u8]) -> Result<(), DeskFault> {
        self.desk.sub(subject, queue, sid)
    }

    fn unsub(&mut self, sid: &[u8], max: Option<u64>) -> Result<(), DeskFault> {
        self.desk.unsub(sid, max)
    }

    fn publish(&mut self, message: &Out, now: Moment) -> Result<Taken, DeskFault> {
        let taken = self.desk.publish(message, now);
        self.ring();
        taken
    }

    fn tick(&mut self, now: Moment) -> Result<(), DeskFault> {
        let ticked = self.desk.tick(now);
        self.ring();
        ticked
    }

    fn settle(&mut self, now: Moment) -> Result<bool, DeskFault> {
        let settled = self.desk.settle(now);
        self.ring();
        settled
    }

    fn collect(&mut self, max: usize) -> Result<Collected, DeskFault> {
        self.desk.collect(max)
    }

    fn close(&mut self) -> Result<(), DeskFault> {
        self.board.hang(self.rt, self.worker, None);
        self.desk.close()
    }

    ghost made_nothing = { λ d. (made_nothing d.desk.scene, refl) };

    ghost made_more = { λ a b c first more h k. (made_more a.desk.scene b.desk.scene c.desk.scene first more h.0 k.0, k.1 ∙ h.1) };
}
