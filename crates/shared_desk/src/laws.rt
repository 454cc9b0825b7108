//! What follows for the passes of a hub, by the definitions alone.

ghost use Rattle.shared_desk.specs.Laws.{LawAll, LawNumbers};

/// The calls of a desk leave each seat its numbers.
pub fn law_numbers()
    ensures law { LawNumbers }
{}

/// After calls of their desks, all passes of a hub are still all of it, as `Hub::close` asks.
pub fn law_all()
    ensures law { LawAll }
{}
