//! That a call on a volume failed.

/// The disk failed, or memory ran out in a form in memory, and the volume's count of faults rose.
#[derive(Clone, Copy, Debug, PartialEq, Eq)]
pub struct Failed;
