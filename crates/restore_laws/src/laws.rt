//! How the states of a place and what a volume holds of them stand to each other, by the definitions alone.

ghost use Rattle.restore_laws.specs.Laws.{LawOpened, LawHeld, LawHeldOpened, LawRestorable, LawRestorableEvent, LawRestorableDelivery, LawRestorableEmpty, LawRestorableLasting, LawStorable, LawOpenable, LawRestored, LawRestoredConsumers};

/// What is opened from what a volume holds of a state is what outlives a crash of it, and of that the volume holds the same. What
/// is formed as a log gives it is what the volume holds of the state that is opened from it.
pub fn law_held()
    ensures opened { LawOpened }
    ensures held { LawHeld }
    ensures held_opened { LawHeldOpened }
{}

/// A stream can be restored to each state that a run reaches from such a state: the moments of what is stored do not fall, and
/// its limits and its retention drop nothing more. So it is of an event, of a delivery, and of what outlives a crash. Of an
/// empty stream it holds, and of a vacant place by definition.
pub fn law_restorable()
    ensures law { LawRestorable }
    ensures event { LawRestorableEvent }
    ensures delivery { LawRestorableDelivery }
    ensures empty { LawRestorableEmpty }
    ensures lasting { LawRestorableLasting }
{}

/// What a volume holds of a sound state within its bounds passes what is asked of it at the end of each batch of records; and if
/// a stream can be restored to the state, it passes what is asked when the volume is opened.
pub fn law_storable()
    ensures storable { LawStorable }
    ensures openable { LawOpenable }
{}

/// What is opened from what passed both is a state to which a stream can be restored, and each of its consumers too.
pub fn law_restored()
    ensures law { LawRestored }
    ensures consumers { LawRestoredConsumers }
{}
