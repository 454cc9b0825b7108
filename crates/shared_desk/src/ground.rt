//! What the desk of one caller of many stands on: its seats at the router, at the catalog and at each place of a hub.

ghost use Rattle.std.specs.Prelude.{◌≡◌, ◌<◌, ◌≤◌, ◌&&◌, IfErr, IfOk, IfSome, false, length};
ghost use Rattle.js_model.specs.Catalog.{At};
ghost use Rattle.desk_ground.specs.Grounds.{Outside};
ghost use Rattle.hub_catalog.specs.Calls.{look_call};
ghost use Rattle.hub_fronts.proofs.Seen.{made_more, made_nothing};
ghost use Rattle.hub_router.specs.Calls.{MayCall};
ghost use Rattle.std.proofs.Common.{refl, ◌∙◌};
ghost use Rattle.shared_desk.specs.Grounds.{HubMade, IsLookedBy, IsRoutedBy, IsUnlooked, IsUnrouted, collects_left, setting_of};
ghost use Rattle.shared_desk.specs.Passes.{IsPassOf};

use crate::hub::Hub;
use crate::pass::Pass;
use crate::row::{put_at, take_at};
use crate::side::Side;
use desk_ground::{Caller, Ground};
use desk_places::{Turn, desk_answer, is_drop, is_dropped, last_of, place_or, sent};
use hub_catalog::{Look, OpenCatalog, look_up};
use hub_place::{PlaceKind, hold_at};
use hub_router::{
    CloseCall, CollectCall, OpenCall, OptionsCall, PublishCall, RouterCall, RouterKind, SubCall,
    UnsubCall, call_router,
};
use js_api::{DeskFault, Outcome};
use js_base::{Blob, Moment, Name, Out};
use js_model::{CatalogFault, Collected, PlaceAt, What};
use place_engine::Place;
use std::alloc::Global;
use std::marker::Model;
use std::sync::Wait;
use turn_lock::Seat;

/// The seats of a caller, the hub that they are of, and the handle by which it waits for its turns. It can't be dropped: `into_pass` ends it.
pub struct HubGround<'a, P: Place, W: Wait> {
    rt: &'a W,
    hub: &'a Hub<P>,
    /// It is away within a call alone, as are those of the places.
    router: Option<Seat<RouterKind>>,
    catalog: Side,
    places: Vec<Option<Seat<PlaceKind<P>>>>,
    /// The place of the last tick.
    ticked: u32,
    /// The place behind which the next tick looks for one, if not behind that of the last.
    behind: Option<u32>,
    /// The place of the last hold, with the incarnation that was asked for there.
    last: Option<PlaceAt>,
    turn: Turn,
}

impl<'a, P: Place, W: Wait> Model for HubGround<'a, P, W> {
    ghost use Rattle.shared_desk.specs.Grounds.{IsGrounded, Standing, standing};

    ghost Value = { Standing };

    ghost view = { λ ground. standing ground.hub.now ground.router ground.catalog ground.places.items ground.ticked ground.last ground.turn };

    ghost invariant = { λ ground. IsGrounded ground.hub.now ground.router ground.catalog ground.places.items ground.last ground.turn };
}

impl<'a, P: Place, W: Wait> HubGround<'a, P, W> {
    /// The ground of a caller with these seats. It is in no turn of the catalog.
    pub fn of(rt: &'a W, hub: &'a Hub<P>, pass: Pass<P>) -> HubGround<'a, P, W>
        requires own { IsPassOf hub.now pass }
        ensures hub { result.hub ≡ hub.now }
        ensures scene { result.scene ≡ pass }
        ensures outside { result.phase ≡ Outside }
    {
        let Pass {
            router,
            catalog,
            places,
            ticked,
            last,
        } = pass;
        let Some(seat) = catalog else { unreachable!() };
        hub.law_hub();
        HubGround {
            rt,
            hub,
            router,
            catalog: Side::Outside(seat),
            places,
            ticked,
            behind: None,
            last,
            turn: Turn::Outside,
        }
    }

    /// Its seats.
    pub fn into_pass(self) -> Pass<P>
        requires outside { self.phase ≡ Outside }
        ensures scene { result ≡ self.entry.scene }
        ensures own { IsPassOf self.entry.hub result }
    {
        let HubGround {
            rt: _,
            hub: _,
            router,
            catalog,
            places,
            ticked,
            behind: _,
            last,
            turn: _,
        } = self;
        let Side::Outside(seat) = catalog else {
            unreachable!()
        };
        Pass {
            router,
            catalog: Some(seat),
            places,
            ticked,
            last,
        }
    }

    /// The next tick looks behind this place for one.
    pub fn tick_behind(&mut self, place: u32)
        ensures same { self.new ≡ self.old }
    {
        self.behind = Some(place);
    }

    /// Makes a call of the router in a turn of the caller's seat. An `Err` makes none, since all tickets of the router are drawn.
    fn route<C: RouterCall>(&mut self, call: &C) -> Result<C::Answer, DeskFault>
        requires may { MayCall self.old.scene.fronts.router (C.call call.now) }
        ensures routed { IfOk result (λ answer. IsRoutedBy (C.call call.now) (C.told answer) self.old self.new) }
        ensures worn { IfErr result (λ fault. IsUnrouted fault self.old self.new) }
    {
        let Some(seat) = self.router.take() else {
            unreachable!()
        };
        let (told, seat) = call_router(self.rt, self.hub.router(), seat, call);
        self.router = Some(seat);
        match told {
            Ok(answer) => Ok(answer),
            Err(number) => Err(DeskFault::Worn(number)),
        }
    }

    /// Looks up in a turn of the caller's seat at the catalog. An `Err` looks nothing up, since all tickets of the catalog are drawn.
    fn look(&mut self, look: Look<'_>) -> Result<Option<PlaceAt>, DeskFault>
        requires outside { self.old.phase ≡ Outside }
        ensures looked { IfOk result (λ found. IsLookedBy false (look_call look.entry) (At found) self.old self.new) }
        ensures within { IfOk result (λ found. IfSome found (λ at. at.place < length self.old.hub.places)) }
        ensures worn { IfErr result (λ fault. IsUnlooked fault self.old self.new) }
        ensures few { length self.old.hub.places ≤ 32 }
        ensures phase { self.new.phase ≡ Outside }
    {
        let seat = self.catalog.take_seat();
        let (found, seat) = look_up(self.rt, self.hub.catalog(), seat, look);
        self.catalog.put(Side::Outside(seat));
        match found {
            Ok(found) => Ok(found),
            Err(number) => Err(DeskFault::Worn(number)),
        }
    }
}

impl<'a, P: Place, W: Wait> Ground for HubGround<'a, P, W> {
    ghost made = { HubMade };

    ghost setting = { setting_of };

    ghost phase = { λ ground. ground.phase };

    ghost kept = { λ ground. ground.kept };

    ghost left = { λ ground session. collects_left ground };

    ghost alone = { false };

    fn alloc(&self) -> Global {
        self.hub.alloc()
    }

    fn open(&mut self) -> Result<u64, DeskFault> {
        desk_answer(self.route(&OpenCall)?)
    }

    fn options(&mut self, session: u64, echo: bool, headers: bool) -> Result<(), DeskFault> {
        self.route(&OptionsCall {
            session,
            echo,
            headers,
        })
    }

    fn sub(
        &mut self,
        session: u64,
        subject: &[u8],
        queue: Option<&[u8]>,
        sid: &[u8],
    ) -> Result<(), DeskFault> {
        let answer = desk_answer(self.route(&SubCall {
            session,
            subject,
            queue,
            sid,
        })?);
        self.hub.timers().note_subscription();
        answer
    }

    fn unsub(&mut self, session: u64, sid: &[u8], max: Option<u64>) -> Result<(), DeskFault> {
        desk_answer(self.route(&UnsubCall { session, sid, max })?)
    }

    fn publish(&mut self, message: &Out, caller: Caller) -> Result<u64, DeskFault> {
        desk_answer(self.route(&PublishCall {
            message,
            from: Some(caller.session),
        })?)
    }

    fn send(&mut self, out: &Out) -> Result<(), DeskFault> {
        sent(self.route(&PublishCall {
            message: out,
            from: None,
        })?)
    }

    fn collect(&mut self, session: u64, max: usize) -> Result<Collected, DeskFault> {
        desk_answer(self.route(&CollectCall { session, max })?)
    }

    fn close(&mut self, session: u64) -> Result<(), DeskFault> {
        self.route(&CloseCall { session })
    }

    // ---- look-ups

    fn find(&mut self, subject: &[u8]) -> Result<Option<PlaceAt>, DeskFault> {
        self.look(Look::Find(subject))
    }

    fn by_name(&mut self, name: &Name) -> Result<Option<PlaceAt>, DeskFault> {
        self.look(Look::ByName(name))
    }

    fn next_used(&mut self, after: u32) -> Result<Option<PlaceAt>, DeskFault> {
        self.look(Look::NextUsed(after))
    }

    fn turn(&mut self) -> Result<Option<PlaceAt>, DeskFault> {
        let after = self.behind.take().unwrap_or(self.ticked);
        let found = self.look(Look::NextUsed(after))?;
        self.ticked = place_or(after, found);
        Ok(found)
    }

    // ---- one turn of the catalog

    fn begin(&mut self, name: &Name) -> Result<Option<PlaceAt>, DeskFault> {
        let seat = self.catalog.take_seat();
        match OpenCatalog::begin(self.rt, self.hub.catalog(), seat) {
            Ok(mut turn) => {
                let found = turn.by_name(name);
                self.catalog.put(Side::Inside(turn));
                self.turn = Turn::Within;
                Ok(found)
            }
            Err((number, seat)) => {
                self.catalog.put(Side::Outside(seat));
                Err(DeskFault::Worn(number))
            }
        }
    }

    fn add(&mut self, name: &Name, subjects: &[Blob]) -> Result<PlaceAt, CatalogFault> {
        let mut turn = self.catalog.take_turn();
        let added = turn.add(name, subjects);
        self.catalog.put(Side::Inside(turn));
        added
    }

    fn change(&mut self, at: PlaceAt, subjects: &[Blob]) -> Result<(), CatalogFault> {
        let mut turn = self.catalog.take_turn();
        let changed = turn.change(at, subjects);
        self.catalog.put(Side::Inside(turn));
        self.turn = self.turn.after_change(&changed, at.place);
        changed
    }

    fn keep(&mut self, place: u32, new: bool) {
        let mut turn = self.catalog.take_turn();
        turn.keep(place, new);
        self.catalog.put(Side::Inside(turn));
        self.turn = Turn::Within;
    }

    fn remove(&mut self, place: u32, dropped: bool) {
        let mut turn = self.catalog.take_turn();
        turn.remove(place, dropped);
        self.catalog.put(Side::Inside(turn));
        self.turn = Turn::Within;
    }

    fn stop(&mut self, place: u32) {
        let mut turn = self.catalog.take_turn();
        turn.stop(place);
        self.catalog.put(Side::Inside(turn));
        self.turn = Turn::Within;
    }

    fn end(&mut self) {
        let turn = self.catalog.take_turn();
        let seat = turn.end(self.hub.catalog());
        self.catalog.put(Side::Outside(seat));
        self.turn = Turn::Outside;
    }

    // ---- holds

    fn resume(&mut self) -> Option<PlaceAt> {
        self.last
    }

    fn hold(&mut self, at: PlaceAt, what: What, now: Moment) -> Outcome {
        let asked = is_drop(&what);
        let seat = take_at(&mut self.places, at.place);
        let (outcome, seat) = hold_at(
            self.rt,
            self.hub.alloc(),
            self.hub.place(at.place),
            self.hub.router(),
            self.hub.timers(),
            seat,
            at,
            what,
            now,
        );
        put_at(&mut self.places, at.place, seat);
        let dropped = is_dropped(asked, &outcome.became);
        self.turn = self.turn.after_hold(dropped, at.place);
        self.last = last_of(&outcome.became, at, self.last);
        outcome
    }

    ghost made_nothing = { λ ground. (made_nothing ground.scene, refl) };

    ghost made_more = { λ a b c first more h k. (made_more a.scene b.scene c.scene first more h.0 k.0, k.1 ∙ h.1) };
}
