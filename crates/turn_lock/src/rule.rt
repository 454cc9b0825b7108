//! The rule of a lock.

use crate::kept::Kept;
use crate::noted::Noted;
use crate::sight::Sight;
use crate::standing::Standing;
use atomic_table::TableRule;
use histories::Start;
use std::marker::PhantomData;

/// What a lock is told once: the state in which its history opens, and how many seats it is given.
#[derive(Drop)]
pub struct Terms {
    pub opening: Noted<Start>,
    pub seats: u32,
}

/// The rule of the two words, the slot and the seats.
pub struct Ruling<P> {
    standing: PhantomData<P>,
}

impl<S, P: Standing<S>> TableRule<Option<Kept<S>>, Sight, Terms> for Ruling<P> {
    ghost use Rattle.turn_lock.specs.Views.{opened};
    ghost use Rattle.turn_lock.specs.Ruled.{IsRuled};

    ghost holds = { λ terms. IsRuled P.lawful terms.opening.value terms.seats P.stands };

    ghost first = { λ terms. opened terms.opening.value terms.seats };
}
