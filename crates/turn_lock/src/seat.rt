//! A caller's place at a lock.

ghost use Rattle.std.specs.Prelude.{◌≡◌};
ghost use Rattle.model_laws.specs.Legal.{IsLegal};
ghost use Rattle.histories.specs.Entries.{seat_of};
ghost use Rattle.histories.specs.Fronts.{own};
ghost use Rattle.turn_lock.specs.Calls.{number_of};

use crate::sight::Sight;
use crate::standing::Lawful;
use atomic_table::Badge;
use std::marker::{Model, PhantomData};

/// A caller's place at a lock: what it has seen of the history, and its own entries there. It has no bytes.
#[derive(Drop)]
pub struct Seat<P: Lawful> {
    pub(crate) badge: Badge<Sight>,
    pub(crate) standing: PhantomData<P>,
}

impl<P: Lawful> Model for Seat<P> {
    ghost use Rattle.turn_lock.specs.Seats.{SeatView, shown, view_of, IsIdle};

    ghost Value = { SeatView };

    ghost view = { λ s. shown s.badge.table_id (view_of s.badge.views) };

    ghost invariant = { λ s. IsIdle P.lawful s.badge.views };
}

impl<P: Lawful> Seat<P> {
    /// What a seat has seen is a lawful beginning of the history, and its own entries there are those with its numbers.
    pub fn law_legal(&self)
        ensures legal { IsLegal (P.lawful self.now.opening) seat_of self.now.numbers self.now.front (own self.now.numbers self.now.front) }
    {
        let _ = &self.badge;
    }
}
