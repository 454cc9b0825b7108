//! What many callers share.

ghost use Rattle.std.specs.Prelude.{◌≡◌, ◌≤◌, ◌<◌, Some, length, slice_get};
ghost use Rattle.shared_desk.specs.Finding.{messages_found, streams_found};
ghost use Rattle.shared_desk.specs.Hubs.{IsHub};

use crate::finding::Tally;
use catalog::Catalog;
use hub_catalog::CatalogKind;
use hub_place::{HubPlace, PlaceKind, Timers};
use hub_router::RouterKind;
use js_base::Moment;
use place_engine::Place;
use route_core::{Roused, Router};
use std::alloc::Global;
use std::marker::Model;
use std::sync::Arc;
use turn_lock::Turns;

/// A router, a catalog and at most 32 places, each behind turns. It can't be dropped: `close` ends it.
pub struct Hub<P: Place> {
    pub(crate) alloc: Global,
    /// The sessions that the router handed messages.
    pub(crate) roused: Arc<Roused>,
    /// When somebody has to let time pass at the places.
    pub(crate) timers: Timers,
    pub(crate) router: Turns<Router, RouterKind>,
    pub(crate) catalog: Turns<Catalog, CatalogKind>,
    pub(crate) places: Vec<Turns<HubPlace<P>, PlaceKind<P>>>,
    /// What stood in the places as they were opened.
    pub(crate) opened: Tally,
    /// Empty, with room for the places at the end.
    pub(crate) row: Vec<P>,
    /// Empty, with room for the volumes at the end.
    pub(crate) vols: Vec<P::Vol>,
}

impl<P: Place> Model for Hub<P> {
    ghost use Rattle.std.specs.Prelude.{vec_capacity};
    ghost use Rattle.shared_desk.specs.Hubs.{HubView, IsEquipped};

    ghost Value = { HubView };

    ghost view = { λ hub. record { router = hub.router; catalog = hub.catalog; places = hub.places.items } };

    ghost invariant = { λ hub. IsEquipped (record { router = hub.router; catalog = hub.catalog; places = hub.places.items }) hub.row.items (vec_capacity hub.row) hub.vols.items (vec_capacity hub.vols) hub.opened };
}

impl<P: Place> Hub<P> {
    /// What holds of each hub. It does nothing.
    pub fn law_hub(&self)
        ensures hub { IsHub self.now }
    {
        let _alloc = self.alloc;
    }

    /// How many streams there were as the places were opened.
    pub fn streams_found(&self) -> u64
        ensures value { result ≡ streams_found self.now.places }
    {
        self.opened.streams
    }

    /// How many messages these streams held then.
    pub fn messages_found(&self) -> u64
        ensures value { result ≡ messages_found self.now.places }
    {
        self.opened.messages
    }

    /// Takes out which sessions were handed messages by the calls of all desks since this was asked last: the session n by the bit n % 64, so that
    /// sessions whose numbers are 64 apart stand for each other. Whoever ends their waits asks it after each call. No clause says which sessions are
    /// among them.
    pub fn take_roused(&self) -> u64 {
        self.roused.take()
    }

    /// How many places there are.
    pub fn places(&self) -> u32
        ensures value { result ≡ length self.now.places }
        ensures few { result ≤ 32 }
    {
        self.law_hub();
        self.places.len() as u32
    }

    /// Whether somebody has to let time pass at a place by a moment: something is due there that time alone brings, more can be delivered than the last hold
    /// delivered, or somebody subscribed since it. It waits for nobody. No clause says that it is so.
    pub fn is_due(&self, place: u32, now: Moment) -> bool {
        self.timers.is_due(place, now)
    }

    /// When somebody has to let time pass at the places.
    pub(crate) fn timers(&self) -> &Timers {
        &self.timers
    }

    /// The allocator of which the calls of its desks take their memory.
    pub(crate) fn alloc(&self) -> Global {
        self.alloc
    }

    /// The lock round the router.
    pub(crate) fn router(&self) -> &Turns<Router, RouterKind>
        ensures lock { result.now ≡ self.now.router }
    {
        &self.router
    }

    /// The lock round the catalog.
    pub(crate) fn catalog(&self) -> &Turns<Catalog, CatalogKind>
        ensures lock { result.now ≡ self.now.catalog }
    {
        &self.catalog
    }

    /// The lock round the place of this number.
    pub(crate) fn place(&self, at: u32) -> &Turns<HubPlace<P>, PlaceKind<P>>
        requires within { at < length self.now.places }
        ensures lock { slice_get self.now.places at ≡ Some result.now }
    {
        &self.places[at as usize]
    }
}
