//! What each kind of step tells. These types are for the proofs alone.

ghost use Rattle.turn_lock.specs.Views.{kept_back, dealt, note, met, spent};
ghost use Rattle.turn_lock.specs.Steps.{saw, drew, looked, left, compared};

use crate::kept::Kept;
use crate::sight::Sight;
use crate::standing::{Lawful, Standing};
use atomic_table::{Join, Play, Split};
use std::marker::PhantomData;

/// A look at the next ticket.
pub(crate) struct See;

impl<S> Play<Option<Kept<S>>, Sight> for See {
    ghost then = { saw S };
}

/// A ticket is drawn.
pub(crate) struct Draw;

impl<S> Play<Option<Kept<S>>, Sight> for Draw {
    ghost then = { drew S };
}

/// A look at the ticket that is served.
pub(crate) struct Look<P> {
    standing: PhantomData<P>,
}

impl<S, P: Standing<S>> Play<Option<Kept<S>>, Sight> for Look<P> {
    ghost then = { looked S P.stands P.lawful };
}

/// The next ticket is served.
pub(crate) struct Leave<P> {
    standing: PhantomData<P>,
}

impl<S, P: Lawful> Play<Option<Kept<S>>, Sight> for Leave<P> {
    ghost then = { left S P.lawful };
}

/// A look after two seats became one.
pub(crate) struct Compare<P> {
    standing: PhantomData<P>,
}

impl<S, P: Lawful> Play<Option<Kept<S>>, Sight> for Compare<P> {
    ghost then = { compared S P.lawful };
}

/// A new seat gets a number of its own.
pub(crate) struct Deal;

impl Split<Sight> for Deal {
    ghost left = { kept_back };

    ghost right = { dealt };
}

/// A copy of what a seat has seen.
pub(crate) struct Copied;

impl Split<Sight> for Copied {
    ghost left = { λ v. v };

    ghost right = { note };
}

/// Two seats become one.
pub(crate) struct Meet;

impl Join<Sight> for Meet {
    ghost both = { met };

    ghost spent = { spent };
}
