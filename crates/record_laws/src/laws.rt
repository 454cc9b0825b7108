//! That the changes of events and deliveries may be recorded, by the definitions alone.

ghost use Rattle.record_laws.specs.Laws.{LawEventRecords, LawDeliveryRecords, LawRecordsTogether};

/// Each change of an event that a reader gives, or of a delivery, may be handed over to be recorded in a volume's log, if the state before was sound and
/// within the bounds of a volume; and so may the changes of several one behind the other.
pub fn law_records()
    ensures events { LawEventRecords }
    ensures deliveries { LawDeliveryRecords }
    ensures together { LawRecordsTogether }
{}
