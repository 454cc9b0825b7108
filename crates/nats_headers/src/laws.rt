//! Laws of the definitions: how the reading functions relate to the grammar of blocks.

ghost use Rattle.nats_headers.specs.Laws.{LawBlock, LawTest, LawOne, LawFault, LawOneFault, LawApart, LawHeader, LawTrimmed, LawStatus};

/// What is read without a fault is spelled as a block, and what is spelled so is read without one. The short test of blocks is no other.
pub fn law_blocks()
    ensures block { LawBlock }
    ensures test { LawTest }
{}

/// A block is spelled in one way.
pub fn law_one()
    ensures one { LawOne }
{}

/// A fault is reported exactly if the bytes have it. Bytes have at most one, and a block has none.
pub fn law_faults()
    ensures fault { LawFault }
    ensures one_fault { LawOneFault }
    ensures apart { LawApart }
{}

/// What is read of a name is the first field with this name, without the blanks around its value.
pub fn law_values()
    ensures header { LawHeader }
    ensures trimmed { LawTrimmed }
{}

/// What is written as a status block is spelled as a block of its code, its text and its fields.
pub fn law_status()
    ensures status { LawStatus }
{}
