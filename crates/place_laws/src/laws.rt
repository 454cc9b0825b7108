//! What holds of the calls of a place, by their contract alone.

ghost use Rattle.place_laws.specs.Laws.{LawCalls, LawReadyPlace};

use place_engine::Place;

/// The steps, deliveries and flushes of a place and its preparing of events, whatever they answer, make a run of the machine: each makes one entry of it, lets time pass, or changes nothing.
/// Each law of `model_laws` is one of such runs, and so holds of each place: in memory, and on a volume.
pub fn law_calls<P: Place>()
    ensures law { LawCalls P.seen P.holds P.room_causes.outgrows_log }
{}

/// At each moment a place is ready exactly if the machine can make a delivery there, to a consumer whom it listens to or who asked for messages. So a place whose
/// state is sound delivers nothing only if nothing can be delivered.
pub fn law_ready()
    ensures law { LawReadyPlace }
{
    model_laws::law_ready();
}
