//! What one caller of a hub has while it makes no call.

ghost use Rattle.std.specs.List.{AllByRecursion};
ghost use Rattle.histories.specs.Lawful.{IsCatalogHistory, IsPlaceHistory, IsRouterHistory};
ghost use Rattle.shared_desk.specs.Passes.{IsLegalAt};

use hub_catalog::CatalogKind;
use hub_place::PlaceKind;
use hub_router::RouterKind;
use js_model::PlaceAt;
use std::marker::Model;
use turn_lock::Seat;

/// The seats of one caller at the router, at the catalog and at each place of its hub, and where its own calls go on.
#[derive(Drop)]
pub struct Pass<P> {
    /// It is away within a call alone, as are the others.
    pub(crate) router: Option<Seat<RouterKind>>,
    pub(crate) catalog: Option<Seat<CatalogKind>>,
    pub(crate) places: Vec<Option<Seat<PlaceKind<P>>>>,
    /// The place of the last tick.
    pub(crate) ticked: u32,
    /// The place of the last hold, with the incarnation that was asked for there.
    pub(crate) last: Option<PlaceAt>,
}

impl<P> Model for Pass<P> {
    ghost use Rattle.hub_fronts.specs.Fronts.{SharedScene};
    ghost use Rattle.shared_desk.specs.Passes.{IsPass, scene_by};
    ghost use Rattle.shared_desk.specs.Seats.{seat_in};

    ghost Value = { SharedScene };

    ghost view = { λ pass. scene_by (seat_in pass.router) (seat_in pass.catalog) pass.places.items pass.ticked pass.last };

    ghost invariant = { λ pass. IsPass pass.router pass.catalog pass.places.items pass.last };
}

impl<P> Pass<P> {
    /// What the caller has seen at each lock is a lawful beginning of its history, and its own entries there are those with its number.
    pub fn law_legal(&self)
        ensures router { IsLegalAt IsRouterHistory self.now.fronts.router }
        ensures catalog { IsLegalAt IsCatalogHistory self.now.fronts.catalog }
        ensures places { AllByRecursion (IsLegalAt IsPlaceHistory) self.now.fronts.places }
    {
        if let Some(seat) = &self.router {
            seat.law_legal();
        }
        if let Some(seat) = &self.catalog {
            seat.law_legal();
        }
        for place in &self.places {
            if let Some(seat) = place {
                seat.law_legal();
            }
        }
    }
}
