//! Laws of the definitions.

ghost use Rattle.stream_store.specs.Laws.{LawCounting, LawHolding, LawPlacing};
ghost use Rattle.stream_store.specs.Reserving.{LawReserving};
ghost use Rattle.stream_store.specs.Waiting.{LawWaiting};

use vol_disk::Vol;

/// An image of a volume holds one thing, or has one first fault, and not both; and one that was never begun holds a vacant place.
pub fn law_holding()
    ensures { LawHolding }
{}

/// If records wait that lead from what a volume holds to a state, those of the next step may wait behind them, and lead to the state after it.
pub fn law_waiting()
    ensures { LawWaiting }
{}

/// A change behind others that wait for a commit has its place if it stores no message, or if there is room for its message.
pub fn law_placing()
    ensures { LawPlacing }
{}

/// Changes that wait have room for their messages if those before them had it and each message has it at its spot, also on a volume that got longer.
pub fn law_reserving<V: Vol>(before: &V, after: &V)
    ensures { LawReserving (V.disk before.now) (V.disk after.now) }
{}

/// There is a place for a message as long as fewer files than all are in use by blocks and by what waits, and a commit leaves no more blocks than that.
pub fn law_counting()
    ensures { LawCounting }
{}
