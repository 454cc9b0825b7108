//! What the desk of one caller stands on: the router, the catalog and the places, which all are its own.

ghost use Rattle.std.specs.Prelude.{◌≡◌, ◌≤◌, OnErr, None, true, length, map};
ghost use Rattle.js_api.specs.Leading.{leads_more, leads_nothing};
ghost use Rattle.js_api.specs.Worlds.{SoloStep, kept_in, opening};
ghost use Rattle.js_model.specs.Catalog.{Add, IsCatalogCall, catalog_of};
ghost use Rattle.js_model.specs.Cataloging.{add_told};
ghost use Rattle.js_model.specs.Routing.{waiting_for};
ghost use Rattle.std.proofs.Common.{refl, ◌∙◌};
ghost use Rattle.desk_places.specs.Places.{places_by};
ghost use Rattle.js_desk.specs.Grounds.{SoloMade, row_of, setting_of};
ghost use Rattle.js_desk.specs.Outgrown.{outgrown_more};
ghost use Rattle.js_desk.specs.Outlasting.{outlast_more, outlast_none};
ghost use Rattle.js_desk.specs.Kept.{kept_more, kept_none};
ghost use Rattle.desk_ground.specs.Grounds.{Outside};

use catalog::Catalog;
use desk_ground::{Caller, Ground};
use desk_hold::hold_on;
use desk_places::{Turn, desk_answer, is_drop, is_dropped, last_of, place_or, sent};
use js_api::{DeskFault, Outcome};
use js_base::{Blob, Moment, Name, Out};
use js_model::{CatalogFault, Collected, LAST_PLACE, PlaceAt, What};
use place_engine::Place;
use route_core::Router;
use std::alloc::Global;
use std::marker::Model;

/// A router, a catalog and its places, at most 32.
#[derive(Drop)]
pub struct SoloGround<P: Place> {
    alloc: Global,
    router: Router,
    catalog: Catalog,
    places: Vec<P>,
    /// The place of the last tick.
    ticked: u32,
    /// The place of the last hold, with the incarnation that was asked for there.
    last: Option<PlaceAt>,
    turn: Turn,
}

impl<P: Place> Model for SoloGround<P> {
    ghost use Rattle.std.specs.Prelude.{map};
    ghost use Rattle.desk_places.specs.Places.{places_by};
    ghost use Rattle.js_desk.specs.Grounds.{Standing, standing, IsGrounded};

    ghost Value = { Standing P.Vol };

    ghost view = { λ ground. standing ground.router ground.catalog (places_by P.seen ground.places.items) (map P.vol ground.places.items) ground.ticked ground.last ground.turn };

    ghost invariant = { λ ground. IsGrounded ground.catalog (places_by P.seen ground.places.items) ground.last ground.turn };
}

/// Takes a place of the catalog for a stream of this name, of which it keeps a copy. An `Err` takes none.
fn add_named(catalog: &mut Catalog, name: &Name, subjects: &[Blob]) -> Result<PlaceAt, CatalogFault>
    ensures added { IsCatalogCall catalog.old (Add name.now subjects.now) (add_told result) catalog.new }
    ensures err { OnErr result (catalog.new ≡ catalog.old) }
{
    match name.clone() {
        Ok(name) => catalog.add(name, subjects),
        Err(_) => Err(CatalogFault::NoMemory),
    }
}

impl<P: Place> SoloGround<P> {
    /// A ground without sessions, of places with the streams of a catalog.
    pub fn of(alloc: Global, catalog: Catalog, places: Vec<P>) -> SoloGround<P>
        requires few { length places.items ≤ 32 }
        requires catalog { catalog ≡ catalog_of (map kept_in (places_by P.seen places.items)) }
        ensures scene { result.scene ≡ opening (places_by P.seen places.items) }
        ensures vols { result.vols ≡ map P.vol places.items }
        ensures outside { result.phase ≡ Outside }
    {
        SoloGround {
            alloc,
            router: Router::new(alloc),
            catalog,
            places,
            // so that the first tick goes to the first used place
            ticked: LAST_PLACE,
            last: None,
            turn: Turn::Outside,
        }
    }

    /// The places, in their order.
    pub fn into_places(self) -> Vec<P>
        ensures places { places_by P.seen result.items ≡ self.scene.world.places }
        ensures vols { map P.vol result.items ≡ self.vols }
        ensures few { length result.items ≤ 32 }
    {
        let SoloGround {
            alloc: _,
            router: _,
            catalog: _,
            places,
            ticked: _,
            last: _,
            turn: _,
        } = self;
        places
    }
}

impl<P: Place> Ground for SoloGround<P> {
    ghost made = { λ old entries new. SoloMade P.keeps_vol P.holds P.left P.clock P.base P.room_causes.outgrows_log old entries new };

    ghost setting = { λ ground. setting_of ground.scene };

    ghost phase = { λ ground. ground.phase };

    ghost kept = { λ ground. ground.scene.world.catalog };

    ghost left = { λ ground session. waiting_for ground.scene.world.router session };

    ghost alone = { true };

    fn alloc(&self) -> Global {
        self.alloc
    }

    fn open(&mut self) -> Result<u64, DeskFault> {
        desk_answer(self.router.open())
    }

    fn options(&mut self, session: u64, echo: bool, headers: bool) -> Result<(), DeskFault> {
        self.router.options(session, echo, headers);
        Ok(())
    }

    fn sub(
        &mut self,
        session: u64,
        subject: &[u8],
        queue: Option<&[u8]>,
        sid: &[u8],
    ) -> Result<(), DeskFault> {
        desk_answer(self.router.sub(session, subject, queue, sid))
    }

    fn unsub(&mut self, session: u64, sid: &[u8], max: Option<u64>) -> Result<(), DeskFault> {
        desk_answer(self.router.unsub(session, sid, max))
    }

    fn publish(&mut self, message: &Out, caller: Caller) -> Result<u64, DeskFault> {
        desk_answer(self.router.publish(message, Some(caller.session)))
    }

    fn send(&mut self, out: &Out) -> Result<(), DeskFault> {
        sent(self.router.publish(out, None))
    }

    fn collect(&mut self, session: u64, max: usize) -> Result<Collected, DeskFault> {
        desk_answer(self.router.collect(session, max))
    }

    fn close(&mut self, session: u64) -> Result<(), DeskFault> {
        self.router.close(session);
        Ok(())
    }

    // ---- look-ups

    fn find(&mut self, subject: &[u8]) -> Result<Option<PlaceAt>, DeskFault> {
        Ok(self.catalog.find(subject))
    }

    fn by_name(&mut self, name: &Name) -> Result<Option<PlaceAt>, DeskFault> {
        Ok(self.catalog.by_name(name))
    }

    fn next_used(&mut self, after: u32) -> Result<Option<PlaceAt>, DeskFault> {
        Ok(self.catalog.next_used(after))
    }

    fn turn(&mut self) -> Result<Option<PlaceAt>, DeskFault> {
        let found = self.catalog.next_used(self.ticked);
        self.ticked = place_or(self.ticked, found);
        Ok(found)
    }

    // ---- one turn of the catalog

    fn begin(&mut self, name: &Name) -> Result<Option<PlaceAt>, DeskFault> {
        self.turn = Turn::Within;
        Ok(self.catalog.by_name(name))
    }

    fn add(&mut self, name: &Name, subjects: &[Blob]) -> Result<PlaceAt, CatalogFault> {
        add_named(&mut self.catalog, name, subjects)
    }

    fn change(&mut self, at: PlaceAt, subjects: &[Blob]) -> Result<(), CatalogFault> {
        let changed = self.catalog.change(at.place, subjects);
        self.turn = self.turn.after_change(&changed, at.place);
        changed
    }

    fn keep(&mut self, place: u32, new: bool) {
        self.catalog.keep(place, new);
        self.turn = Turn::Within;
    }

    fn remove(&mut self, place: u32, dropped: bool) {
        self.catalog.remove(place, dropped);
        self.turn = Turn::Within;
    }

    fn stop(&mut self, place: u32) {
        self.catalog.stop(place);
        self.turn = Turn::Within;
    }

    fn end(&mut self) {
        self.turn = Turn::Outside;
    }

    // ---- holds

    fn resume(&mut self) -> Option<PlaceAt> {
        self.last
    }

    fn hold(&mut self, at: PlaceAt, what: What, now: Moment) -> Outcome {
        let asked = is_drop(&what);
        let place = &mut self.places[at.place as usize];
        let outcome = hold_on(self.alloc, place, &mut self.router, at, what, now);
        place.law_kept();
        let dropped = is_dropped(asked, &outcome.became);
        self.turn = self.turn.after_hold(dropped, at.place);
        self.last = last_of(&outcome.became, at, self.last);
        outcome
    }

    ghost made_nothing = { λ ground. (leads_nothing SoloStep ground.scene, kept_none P.keeps_vol P.keeps_none ground.vols, outlast_none P.holds P.left P.clock P.base P.earlier (row_of ground), tt) };

    ghost made_more = { λ a b c first more h k. (leads_more SoloStep a.scene b.scene c.scene first more h.0 k.0, kept_more P.keeps_vol P.keeps_more a.vols b.vols c.vols h.1 k.1, outlast_more P.holds P.left P.clock P.base first more (row_of a) (row_of b) (row_of c) h.2 k.2, outgrown_more P.room_causes.outgrows_log first more h.3 k.3) };
}
