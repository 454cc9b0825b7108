//! Where a stored message lies.

/// A place in the message blocks of a volume: the file, the offset in it and the number of bytes.
#[derive(Clone, Copy, Debug, PartialEq, Eq)]
pub struct Spot {
    /// The number of the block file.
    pub file: u32,
    /// The offset of the first byte in the file.
    pub at: u32,
    /// How many bytes there are.
    pub len: u32,
}
