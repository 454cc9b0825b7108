//! What each turn of a hub needs: a note of no entries, and the ticket that a lock names whose tickets are all drawn.

ghost use Rattle.std.specs.Prelude.{◌≡◌, []};
ghost use Rattle.turn_lock.specs.declared.fault.TurnFault.TheVariants.{Worn};
ghost use Rattle.turn_lock.specs.Ruled.{last_ticket};

use histories::Past;
use turn_lock::{Entries, Notes, TurnFault};

struct NoEntries;

impl Notes<(), Past> for NoEntries {
    ghost note = { λ u. [] };
}

/// A note of no entries.
pub fn no_entries() -> Entries
    ensures value { result.value ≡ [] }
{
    Entries::of::<(), NoEntries>(&())
}

/// The ticket that a lock names whose tickets are all drawn: the one that is never drawn, 2^62.
pub fn ticket_of(fault: TurnFault) -> u64
    requires worn { fault ≡ Worn last_ticket }
    ensures value { result ≡ last_ticket }
{
    match fault {
        TurnFault::Worn(ticket) => ticket,
        TurnFault::NoMemory => unreachable!(),
    }
}
