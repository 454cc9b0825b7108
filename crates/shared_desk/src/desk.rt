//! The desk of one caller of many.

ghost use Rattle.std.specs.Prelude.{◌≡◌};
ghost use Rattle.js_api.specs.Clients.{closed, new_client};
ghost use Rattle.hub_fronts.proofs.Seen.{made_more, made_nothing};
ghost use Rattle.std.proofs.Common.{refl, ◌∙◌};
ghost use Rattle.shared_desk.specs.Desks.{HubDeskMade, frames_left};
ghost use Rattle.shared_desk.specs.Passes.{IsPassOf};

use crate::ground::HubGround;
use crate::hub::Hub;
use crate::pass::Pass;
use desk_calls::publish;
use desk_ground::{Caller, Ground};
use desk_messaging::{close, collect, options, settle, sub, tick, unsub};
use js_api::{Desk, DeskFault};
use js_base::{Moment, Out};
use js_model::{Collected, LAST_PLACE, Taken};
use place_engine::Place;
use std::marker::Model;
use std::sync::Wait;

/// A desk over the seats of a pass, and the client of its session. It can't be dropped: `into_pass` ends it.
pub struct HubDesk<'a, P: Place, W: Wait> {
    ground: HubGround<'a, P, W>,
    /// The client of its session.
    caller: Caller,
}

impl<'a, P: Place, W: Wait> Model for HubDesk<'a, P, W> {
    ghost use Rattle.shared_desk.specs.Desks.{HubDeskView, IsConsistent, desk_of};

    ghost Value = { HubDeskView };

    ghost view = { λ desk. desk_of desk.ground desk.caller };

    ghost invariant = { λ desk. IsConsistent desk.ground desk.caller };
}

impl<P: Place> Hub<P> {
    /// The desk of a caller with this pass of the hub, which waits for its turns by the handle. No session of it was opened.
    pub fn desk<'a, W: Wait>(&'a self, rt: &'a W, pass: Pass<P>) -> HubDesk<'a, P, W>
        requires own { IsPassOf self.now pass }
        ensures hub { result.hub ≡ self.now }
        ensures scene { result.scene ≡ pass }
        ensures client { result.client ≡ closed (new_client 0) }
    {
        HubDesk {
            ground: HubGround::of(rt, self, pass),
            caller: Caller {
                session: 0,
                is_open: false,
                told: false,
            },
        }
    }
}

impl<'a, P: Place, W: Wait> HubDesk<'a, P, W> {
    /// Its pass. A session that is open stays so, and nobody can close it.
    pub fn into_pass(self) -> Pass<P>
        ensures scene { result ≡ self.entry.scene }
        ensures own { IsPassOf self.entry.hub result }
    {
        let HubDesk { ground, caller: _ } = self;
        ground.into_pass()
    }
}

impl<'a, P: Place, W: Wait> HubDesk<'a, P, W> {
    /// The next tick goes to this place, if there is a stream, and else to the next one behind it.
    pub fn aim(&mut self, place: u32)
        ensures same { self.new ≡ self.old }
    {
        let behind = if place == 0 { LAST_PLACE } else { place - 1 };
        self.ground.tick_behind(behind);
    }
}

impl<'a, P: Place, W: Wait> Desk for HubDesk<'a, P, W> {
    ghost client = { λ desk. desk.client };

    ghost made = { HubDeskMade };

    ghost left = { λ desk. frames_left desk };

    fn open(&mut self) -> Result<u64, DeskFault> {
        let session = self.ground.open()?;
        self.caller = Caller {
            session,
            is_open: true,
            told: false,
        };
        Ok(session)
    }

    fn options(&mut self, echo: bool, headers: bool, no_responders: bool) -> Result<(), DeskFault> {
        options(&mut self.ground, self.caller, echo, headers)?;
        self.caller.told = headers && no_responders;
        Ok(())
    }

    fn sub(&mut self, subject: &[u8], queue: Option<&[u8]>, sid: &[u8]) -> Result<(), DeskFault> {
        sub(&mut self.ground, self.caller, subject, queue, sid)
    }

    fn unsub(&mut self, sid: &[u8], max: Option<u64>) -> Result<(), DeskFault> {
        unsub(&mut self.ground, self.caller, sid, max)
    }

    fn publish(&mut self, message: &Out, now: Moment) -> Result<Taken, DeskFault> {
        publish(&mut self.ground, self.caller, message, now)
    }

    fn tick(&mut self, now: Moment) -> Result<(), DeskFault> {
        tick(&mut self.ground, now)
    }

    fn settle(&mut self, now: Moment) -> Result<bool, DeskFault> {
        settle(&mut self.ground, now)
    }

    fn collect(&mut self, max: usize) -> Result<Collected, DeskFault> {
        collect(&mut self.ground, self.caller, max)
    }

    fn close(&mut self) -> Result<(), DeskFault> {
        let closed = close(&mut self.ground, self.caller);
        self.caller.is_open = false;
        closed
    }

    ghost made_nothing = { λ desk. (made_nothing desk.scene, refl) };

    ghost made_more = { λ a b c first more h k. (made_more a.scene b.scene c.scene first more h.0 k.0, k.1 ∙ h.1) };
}
