//! What holds of the timers of what a place holds, by the definitions alone.

ghost use Rattle.timer_laws.specs.Laws.{LawBound, LawTimers, LawReadiness, LawTicked, LawIdle, LawIdleBefore, LawSettled, LawSettledVacant, LawSettledEvent, LawSettledDelivery, LawSettledLasting, LawFiring, LawRest, LawServed};

/// A bound of timers is a moment before which there are none; without a bound there are none at all.
pub fn law_bound()
    ensures law { LawBound }
{}

/// Before each timer of a state at rest, time changes nothing of it but its moment: nothing is sent, no delivery is due that was not, and some consumer
/// is ready if and only if one was. A tick then sends nothing, and leaves what the limits and the retention of the stream keep of
/// it, at the tick's moment. A state is at rest if all that is due by its own moment has been done.
pub fn law_timers()
    ensures law { LawTimers }
    ensures readiness { LawReadiness }
    ensures ticked { LawTicked }
{}

/// A tick before anything is due sends nothing, and changes nothing of a settled state but its moment: wherever the state is quiet, and so before each
/// timer of a state at rest. If the tick is not later than the state, it changes nothing at all. A state is settled if its limits and its retention have
/// nothing left to drop.
pub fn law_idle()
    ensures law { LawIdle }
    ensures before { LawIdleBefore }
{}

/// Each state to which a run leads from a settled one is settled. A vacant place is, and so is what an event leaves, whatever the state was; what a
/// delivery leaves of a settled state, and what outlives a crash of it, is settled too.
pub fn law_settled()
    ensures law { LawSettled }
    ensures vacant { LawSettledVacant }
    ensures event { LawSettledEvent }
    ensures delivery { LawSettledDelivery }
    ensures lasting { LawSettledLasting }
{}

/// Of a sound state no timer is one too many: at each of them something is sent, a message or an id leaves, or a delivery is due again or given up.
pub fn law_firing()
    ensures law { LawFiring }
{}

/// What a tick leaves is at rest, and what a delivery leaves of a sound state, but at the last moment that there is: heartbeats come with each event
/// then.
pub fn law_rest()
    ensures law { LawRest }
    ensures served { LawServed }
{}
