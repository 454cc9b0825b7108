//! A place of a hub, and its seat at the router.

ghost use Rattle.std.specs.Prelude.{◌≡◌, []};
ghost use Rattle.hub_place.specs.Kinds.{IsNewPlace, IsNewPort, PlaceIs, opening_of};

use hub_router::RouterKind;
use place_engine::Place;
use turn_lock::Seat;

/// A place, and the seat of the router by which it sends its outputs before its turn is left.
#[derive(Drop)]
pub struct HubPlace<P: Place> {
    pub place: P,
    pub port: Seat<RouterKind>,
}

impl<P: Place> HubPlace<P> {
    /// A place that was just opened, and a new seat of the router. They stand for the empty history from their opening state.
    pub fn of(place: P, port: Seat<RouterKind>) -> HubPlace<P>
        requires opened { IsNewPlace P.holds P.left P.clock P.base P.keeps_vol (P.seen place).place (P.vol place) }
        requires new { IsNewPort port }
        ensures place { (result.place ≡ place) × (result.port ≡ port) }
        ensures stands { PlaceIs P.holds P.left P.clock P.base P.keeps_vol (opening_of (P.seen result.place).place result.port) [] (P.seen result.place).place (P.vol result.place) result.port }
    {
        HubPlace { place, port }
    }

    /// The place and the seat.
    pub fn into_parts(self) -> (P, Seat<RouterKind>)
        ensures place { result.0 ≡ self.place }
        ensures port { result.1 ≡ self.port }
    {
        let HubPlace { place, port } = self;
        (place, port)
    }
}
