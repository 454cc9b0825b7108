//! A law of what a consumer needs.

ghost use Rattle.consumer_need.specs.Needs.{LawNeeds};

/// Whether a consumer needs a message is told by the message's subject and its sequence.
pub fn law_needs()
    ensures law { LawNeeds }
{}
