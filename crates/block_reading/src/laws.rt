//! Laws of the definitions.

ghost use Rattle.block_reading.specs.Laws.{LawStored};

/// The blocks of a volume hold one list of messages, or they are damaged at one place, and not both.
pub fn law_stored()
    ensures { LawStored }
{}
