//! A value that is held, and the seat whose turn it is.

ghost use Rattle.std.specs.Prelude.{◌≡◌, true};
ghost use Rattle.js_base.specs.Bytes.{has};
ghost use Rattle.model_laws.specs.Legal.{IsLegal};
ghost use Rattle.histories.specs.Entries.{seat_of};
ghost use Rattle.histories.specs.Fronts.{own};
ghost use Rattle.turn_lock.specs.Calls.{number_of};

use crate::kept::Kept;
use crate::noted::{Noted, Notes};
use crate::sight::Sight;
use crate::standing::Lawful;
use std::marker::{Model, PhantomData};

/// A seat whose turn it is.
pub struct InTurn<S, P: Lawful> {
    pub(crate) seat: atomic_table::Seat<Option<Kept<S>>, Sight>,
    pub(crate) standing: PhantomData<P>,
}

impl<S, P: Lawful> Model for InTurn<S, P> {
    ghost use Rattle.turn_lock.specs.Seats.{SeatView, shown, IsInside};

    ghost Value = { SeatView };

    ghost view = { λ s. shown s.seat.table_id s.seat.me.0 };

    ghost invariant = { λ s. IsInside P.lawful s.seat.me };
}

/// A value, and the seat that holds it. It can't be dropped: the turn ends by `Turns::leave` alone.
pub struct Held<S, P: Lawful> {
    pub value: S,
    pub seat: InTurn<S, P>,
}

// The number under which a seat leaves its entries.
struct Number;

impl<S, P: Lawful> Notes<InTurn<S, P>, u64> for Number {
    ghost note = { number_of };
}

impl<S, P: Lawful> InTurn<S, P> {
    /// The number that the entries of this turn have, which a caller puts into them. It is one of the seat's.
    pub fn number(&self) -> Noted<u64>
        ensures value { result.value ≡ number_of self.now }
        ensures own { has self.now.numbers result.value ≡ true }
    {
        let _ = &self.seat;
        Noted::<u64>::of::<InTurn<S, P>, Number>(self)
    }

    /// What a seat has seen is a lawful beginning of the history, and its own entries there are those with its numbers.
    pub fn law_legal(&self)
        ensures legal { IsLegal (P.lawful self.now.opening) seat_of self.now.numbers self.now.front (own self.now.numbers self.now.front) }
    {
        let _ = &self.seat;
    }
}
