//! One caller learns what another one has seen.

ghost use Rattle.std.specs.Prelude.{◌≡◌, length};
ghost use Rattle.std.specs.List.{AllZip};
ghost use Rattle.shared_desk.specs.Meeting.{HaveMet};
ghost use Rattle.shared_desk.specs.Passes.{IsPassOf};
ghost use Rattle.shared_desk.specs.Seats.{AllThree, AreThere, IsSeatOf, IsSeated, seat_in, seats_in};
ghost use Rattle.turn_lock.specs.Calls.{HasMet};

use crate::hub::Hub;
use crate::pass::Pass;
use crate::row::{put_at, take_at};
use hub_place::PlaceKind;
use place_engine::Place;
use turn_lock::{Seat, Standing, Turns};

/// The seat of the one, which meets that of the other.
fn meet_one<S, K: Standing<S>>(
    lock: &Turns<S, K>,
    one: &mut Option<Seat<K>>,
    other: &mut Option<Seat<K>>,
)
    requires own { IsSeated lock.now one.old × IsSeated lock.now other.old }
    ensures other { other.new ≡ other.old }
    ensures own { IsSeated lock.now one.new }
    ensures met { HasMet (seat_in one.old) (seat_in other.old) (seat_in one.new) }
{
    let Some(seat) = one.take() else {
        unreachable!()
    };
    let Some(met) = other else { unreachable!() };
    *one = Some(lock.meet(seat, met));
}

impl<P: Place> Hub<P> {
    /// The seats of the one at each place, which meet those of the other.
    fn meet_each(
        &self,
        ones: &mut Vec<Option<Seat<PlaceKind<P>>>>,
        others: &mut Vec<Option<Seat<PlaceKind<P>>>>,
    )
        requires one { AreThere ones.old.items × AllZip IsSeatOf self.now.places (seats_in ones.old.items) }
        requires other { AreThere others.old.items × AllZip IsSeatOf self.now.places (seats_in others.old.items) }
        ensures other { others.new.items ≡ others.old.items }
        ensures own { AreThere ones.new.items × AllZip IsSeatOf self.now.places (seats_in ones.new.items) }
        ensures met { AllThree HasMet (seats_in ones.old.items) (seats_in others.old.items) (seats_in ones.new.items) }
    {
        self.law_hub();
        for at in (0..ones.len() as u32).rev() {
            let one = take_at(ones, at);
            let mut other = take_at(others, at);
            let met = self.place(at).meet(one, &mut other);
            put_at(ones, at, met);
            put_at(others, at, other);
        }
    }

    /// What the other has seen the one has seen then, at each lock. The other stays as it is. It takes no memory and enters no turn.
    pub fn meet(&self, one: &mut Pass<P>, other: &mut Pass<P>)
        requires own { IsPassOf self.now one.old × IsPassOf self.now other.old }
        ensures other { other.new ≡ other.old }
        ensures own { IsPassOf self.now one.new }
        ensures met { HaveMet one.old other.old one.new }
    {
        meet_one(self.router(), &mut one.router, &mut other.router);
        meet_one(self.catalog(), &mut one.catalog, &mut other.catalog);
        self.meet_each(&mut one.places, &mut other.places);
    }
}
