//! Calls on a volume in memory, as they are kept.

use js_base::List;

/// What a call asks of its file.
#[derive(Drop, Debug)]
pub enum Deed {
    /// Asks for the length.
    Len,
    /// Reads so many bytes at an offset.
    Read { at: u64, count: u64 },
    /// Writes these bytes at an offset.
    Write { at: u64, bytes: List<u8> },
    /// Makes the file longer by so many zeros.
    Grow { count: u64 },
    /// Cuts the file to a length.
    Cut { to: u64 },
    /// Brings what was written to the disk.
    Sync,
    /// Asks for a number behind every file with bytes. The call stands under the file 0.
    End,
}

/// A call on a file, and whether it was done; else it failed, or there was no room. Whatever else it answered, a length or bytes, follows
/// from the calls before it.
#[derive(Drop, Debug)]
pub struct Call {
    pub file: u32,
    pub deed: Deed,
    pub is_done: bool,
}
