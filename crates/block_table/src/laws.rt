//! Laws of the definitions.

ghost use Rattle.block_table.specs.Batches.{LawBatch};
ghost use Rattle.block_table.specs.Closing.{LawClosed};
ghost use Rattle.block_table.specs.Rooms.{LawRoom};

/// No message of a batch misfits where it is placed, whatever else the batch takes away, and the batch leaves no more blocks than it found and began.
pub fn law_batch()
    ensures { LawBatch }
{}

/// A table at the end of a batch is one, has no more blocks than before, and stays as it is at the end of another.
pub fn law_closed()
    ensures { LawClosed }
{}

/// As long as fewer files than all are blocks or were begun, there is room for a message, and a stream with few messages has few blocks.
pub fn law_room()
    ensures { LawRoom }
{}
