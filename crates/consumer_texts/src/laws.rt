//! A law of what a delivery sends.

ghost use Rattle.consumer_texts.specs.Deliveries.{LawDelivery};

/// A delivery of the machine sends the message with what is told of it.
pub fn law_delivery()
    ensures law { LawDelivery }
{}
