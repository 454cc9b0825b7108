//! The laws of snapshots.

ghost use Rattle.state_snapshot.specs.Laws.{LawSnapshot, LawWritable};

/// Bytes are read as a snapshot exactly if it can be written and the bytes spell it, and of what a volume may hold, with a table of blocks, a snapshot can be
/// written.
pub fn law_snapshots()
    ensures snapshot { LawSnapshot }
    ensures writable { LawWritable }
{}
