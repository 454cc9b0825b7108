//! The lock.

use crate::kept::Kept;
use crate::rule::{Ruling, Terms};
use crate::sight::Sight;
use crate::standing::Standing;
use atomic_table::Table;
use std::alloc::Global;
use std::marker::Model;

/// The word that has the next ticket.
pub(crate) const TICKET: usize = 0;

/// The word that has the ticket that is served.
pub(crate) const SERVING: usize = 1;

/// The ticket that is never drawn.
pub(crate) const LAST_TICKET: u64 = 1 << 62;

/// A lock round a value that stands for a history. Whoever draws a ticket gets the value when that ticket is served, and leaves it with the
/// entries of that turn. It can't be dropped: `Turns::close` ends it.
pub struct Turns<S, P: Standing<S>> {
    pub(crate) table: Table<Option<Kept<S>>, Sight, Terms, Ruling<P>, Global>,
}

impl<S, P: Standing<S>> Model for Turns<S, P> {
    ghost use Rattle.turn_lock.specs.Seats.{LockView, IsLock};

    ghost Value = { LockView };

    ghost view = { λ t. record { lock = t.table.shared.table_id; opening = t.table.shared.key.opening.value; seats = t.table.shared.key.seats } };

    ghost invariant = { λ t. IsLock t.table.shared.table_id t.table.shared.key.seats };
}
