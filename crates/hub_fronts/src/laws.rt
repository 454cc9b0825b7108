//! What follows for a caller of many from the entries of its desk, and what a place sends over many holds, by the definitions alone.

ghost use Rattle.hub_fronts.specs.Laws.{LawGrown, LawNamed, LawSends};

/// At each lock the caller's front has grown, and its own entries there are more by those of its desk's entries that stand there, each once and in
/// order.
pub fn law_grown()
    ensures law { LawGrown }
{}

/// What runs of a place send one after the other is what they send together, since each entry tells the name of the stream behind it.
pub fn law_named()
    ensures law { LawNamed }
    ensures sends { LawSends }
{}
