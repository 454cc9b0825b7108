//! Laws of the definitions: how the reading function, the grammar and the pieces of an input relate to one another.

ghost use Rattle.nats_frames.specs.Laws.{LawRead, LawSpelled, LawFaulty, LawPartial, LawOne, LawOneFault, LawApart, LawWhole, LawBroken, LawOps, LawJoin};
ghost use Rattle.nats_frames.specs.Pieces.{LawFraming};

/// What is read is spelled so, and what is spelled so is read so, whatever follows.
pub fn law_spelling()
    ensures read { LawRead }
    ensures spelled { LawSpelled }
{}

/// Bytes are read as broken exactly if they begin with a fault, and as partial exactly if they begin with no operation and no fault.
pub fn law_reading()
    ensures faulty { LawFaulty }
    ensures partial { LawPartial }
{}

/// Given bytes begin with at most one operation or fault.
pub fn law_one()
    ensures one { LawOne }
    ensures one_fault { LawOneFault }
    ensures apart { LawApart }
{}

/// What bytes begin with stays, whatever follows: it cannot matter in which pieces an input comes.
pub fn law_cut()
    ensures whole { LawWhole }
    ensures broken { LawBroken }
{}

/// An input is one list of operations and one rest, and more input continues them.
pub fn law_ops()
    ensures one { LawOps }
    ensures join { LawJoin }
{}

/// However an input is cut into pieces, the operations that a decoder gives are those of the whole input, and then its fault.
pub fn law_framing()
    ensures framed { LawFraming }
{}
