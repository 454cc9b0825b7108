//! What is wrong with bytes that should be a header block.

use thiserror::Error;

/// Why bytes are no header block.
#[derive(Clone, Copy, Debug, PartialEq, Eq, Error)]
pub enum HeaderFault {
    /// The first line is not `NATS/1.0`, alone or with a space and a text.
    #[error("no version line")]
    BadStart,
    /// The place, counted from 0, at which the first line begins that is neither a field nor an empty line at the end of the bytes.
    #[error("a line at {0} that is no field")]
    BadLine(usize),
    /// The lines are as they should be, and none of them is the empty line that ends a block. Bytes that no LF ends are no line.
    #[error("no end")]
    NotEnded,
    /// The bytes are a block, and there was no memory for a copy of it.
    #[error("out of memory")]
    NoMemory,
}
