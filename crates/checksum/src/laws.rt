//! Laws of the definitions.

ghost use Rattle.checksum.specs.Laws.{LawChecksum};

/// Bytes may be added piece by piece, and a checksum has 32 bits.
pub fn law_checksum()
    ensures { LawChecksum }
{}
