//! The end of a hub: the seats of all callers become one at each lock, and each place gives its volume back.

ghost use Rattle.std.specs.Prelude.{◌≡◌, ◌≤◌, ◌<◌, [], length, vec_capacity};
ghost use Rattle.turn_lock.specs.Calls.{IsJoined};
ghost use Rattle.shared_desk.specs.Closing.{ClosesHub};
ghost use Rattle.shared_desk.specs.Joining.{HasAllSeats, HaveAll, IsPassJoined, TakesApart, UnlocksEach};
ghost use Rattle.shared_desk.specs.Passes.{AreAllPasses, IsPassOf};
ghost use Rattle.shared_desk.specs.Seats.{AllThree, AreThere, IsSeatOf, IsSeated, seat_in, seats_in};
ghost use Rattle.std.specs.List.{AllByRecursion, AllZip};
ghost use Rattle.hub_place.specs.Holds.{SendsTo};

use crate::hub::Hub;
use crate::pass::Pass;
use crate::row::{put_at, take_at};
use crash_laws::law_opened;
use desk_places::{Closed, close_places};
use hub_place::{HubPlace, PlaceKind};
use hub_router::RouterKind;
use place_engine::Place;
use route_core::Router;
use turn_lock::{Seat, Standing, Turns};

/// The seat that both become.
fn join_one<S, K: Standing<S>>(
    lock: &Turns<S, K>,
    one: Option<Seat<K>>,
    other: Option<Seat<K>>,
) -> Option<Seat<K>>
    requires own { IsSeated lock.now one × IsSeated lock.now other }
    ensures own { IsSeated lock.now result }
    ensures joined { IsJoined (seat_in one) (seat_in other) (seat_in result) }
{
    let Some(one) = one else { unreachable!() };
    let Some(other) = other else { unreachable!() };
    Some(lock.join(one, other))
}

/// The places, each of whose locks ends with the one seat that is left of it, and the seat at the router into which their ports are joined.
fn end_locks<P: Place>(
    locks: Vec<Turns<HubPlace<P>, PlaceKind<P>>>,
    seats: Vec<Option<Seat<PlaceKind<P>>>>,
    row: Vec<P>,
    router: &Turns<Router, RouterKind>,
    seat: Seat<RouterKind>,
) -> (Vec<P>, Seat<RouterKind>)
    requires room { (row.items ≡ []) × (length locks.items ≤ vec_capacity row) }
    requires seated { AreThere seats.items × AllZip IsSeatOf locks.items (seats_in seats.items) }
    requires all { HaveAll locks.items (seats_in seats.items) }
    requires ports { AllByRecursion (λ of. SendsTo of.opening router.now.lock) locks.items }
    requires own { seat.lock ≡ router.now.lock }
    ensures ends { UnlocksEach P.seen P.vol P.holds P.left P.clock P.base P.keeps_vol locks.items (seats_in seats.items) result.0.items seat result.1 }
    ensures own { result.1.lock ≡ router.now.lock }
{
    let mut locks = locks;
    let mut seats = seats;
    let mut row = row;
    let mut all = seat;
    while !locks.is_empty() {
        let lock = locks.take_last();
        let Some(last) = seats.take_last() else {
            unreachable!()
        };
        let (place, port) = lock.close(last).into_parts();
        row.push_reserved(place);
        all = router.join(port, all);
    }
    locks.destroy_empty();
    row.reverse();
    (row, all)
}

impl<P: Place> Hub<P> {
    /// The seats that both have at each place, as one.
    fn join_rows(
        &self,
        ones: Vec<Option<Seat<PlaceKind<P>>>>,
        others: Vec<Option<Seat<PlaceKind<P>>>>,
    ) -> Vec<Option<Seat<PlaceKind<P>>>>
        requires one { AreThere ones.items × AllZip IsSeatOf self.now.places (seats_in ones.items) }
        requires other { AreThere others.items × AllZip IsSeatOf self.now.places (seats_in others.items) }
        ensures own { AreThere result.items × AllZip IsSeatOf self.now.places (seats_in result.items) }
        ensures joined { AllThree IsJoined (seats_in ones.items) (seats_in others.items) (seats_in result.items) }
    {
        self.law_hub();
        let mut ones = ones;
        let mut others = others;
        while !others.is_empty() {
            let Some(other) = others.take_last() else {
                unreachable!()
            };
            let at = others.len() as u32;
            let one = take_at(&mut ones, at);
            let joined = self.place(at).join(one, other);
            put_at(&mut ones, at, joined);
        }
        others.destroy_empty();
        ones
    }

    /// One pass of two: the seats of both, each two as one.
    fn join(&self, one: Pass<P>, other: Pass<P>) -> Pass<P>
        requires own { IsPassOf self.now one × IsPassOf self.now other }
        ensures own { IsPassOf self.now result }
        ensures joined { IsPassJoined one other result }
    {
        Pass {
            router: join_one(self.router(), one.router, other.router),
            catalog: join_one(self.catalog(), one.catalog, other.catalog),
            places: self.join_rows(one.places, other.places),
            ticked: one.ticked,
            last: one.last,
        }
    }

    /// Ends each lock with the one pass that is left, and flushes the places in their order.
    fn take_apart(self, all: Pass<P>) -> Closed<P::Vol>
        requires all { HasAllSeats self all }
        ensures apart { TakesApart P.seen P.vol P.holds P.reads P.left P.clock P.base P.keeps_vol self all result }
    {
        let Hub {
            alloc: _,
            roused: _,
            timers: _,
            router,
            catalog,
            places,
            opened: _,
            row,
            vols,
        } = self;
        let Pass {
            router: of_router,
            catalog: of_catalog,
            places: seats,
            ticked: _,
            last: _,
        } = all;
        let Some(of_router) = of_router else {
            unreachable!()
        };
        let Some(of_catalog) = of_catalog else {
            unreachable!()
        };
        let (row, of_router) = end_locks(places, seats, row, &router, of_router);
        router.close(of_router);
        catalog.close(of_catalog);
        let mut vols = vols;
        let failed = close_places(row, &mut vols);
        Closed { vols, failed }
    }

    /// Takes in all passes of the hub, and brings all that was made at each place that is not stopped to its volume, in their order. It gives the volumes
    /// back, also after a failure. It takes no memory.
    pub fn close(self, passes: Vec<Pass<P>>) -> Closed<P::Vol>
        requires all { AreAllPasses self passes.items }
        ensures closes { ClosesHub P.seen P.vol P.holds P.reads P.left P.clock P.base P.keeps_vol self passes.items result }
    {
        self.law_hub();
        let mut passes = passes;
        let mut all = passes.take_last();
        while !passes.is_empty() {
            all = self.join(passes.take_last(), all);
        }
        law_opened::<P>();
        self.take_apart(all)
    }
}
