//! What the records of a step make of what a volume held before.

ghost use Rattle.effects.specs.Laws.{LawEvents, LawDeliveries, LawInTime, LawInTimeSent, LawNoRecords, LawNoRecordsSent};

/// What an event or a delivery makes of what outlives a crash is what its records make of it, one after the other, if the state before was
/// sound and within the bounds of a volume. It has no record if and only if nothing of what outlives a crash changes.
pub fn law_effects()
    ensures events { LawEvents }
    ensures deliveries { LawDeliveries }
    ensures no_records { LawNoRecords }
    ensures no_records_sent { LawNoRecordsSent }
{}

/// The moments of a stream's messages and ids do not fall, and none is after the last that the stream has seen, as events and deliveries are made.
pub fn law_in_time()
    ensures events { LawInTime }
    ensures deliveries { LawInTimeSent }
{}
