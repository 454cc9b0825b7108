//! Laws of what is to go next.

ghost use Rattle.retention.specs.Laws.{LawTrimmed, LawWithin, LawWithout};

/// A stream of which nothing is to go next is as its limits keep it.
pub fn law_within()
    ensures law { LawWithin }
{}

/// The message that is to go next is there, and without it the limits keep the same.
pub fn law_without()
    ensures law { LawWithout }
{}

/// What the limits keep, they keep again: nothing of it is to go next.
pub fn law_trimmed()
    ensures law { LawTrimmed }
{}
