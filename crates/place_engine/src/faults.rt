//! Why a place was not opened, and why an event was not made.

use thiserror::Error;

/// Why a place was not opened. In memory it is `NoMemory` alone.
#[derive(Clone, Copy, Debug, PartialEq, Eq, Error)]
pub enum OpenFault {
    #[error("the store failed")]
    Fault,
    /// The bytes at this place of the file are none that a place writes.
    #[error("file {file} is damaged at {at}")]
    Damaged { file: u32, at: u64 },
    #[error("unknown version {0}")]
    UnknownVersion(u64),
    /// There is no room for what the place may have to write.
    #[error("no room")]
    NoRoom,
    #[error("out of memory")]
    NoMemory,
}

/// What a call that found no memory leaves of the place and of the outputs.
#[derive(Clone, Copy, Debug, PartialEq, Eq)]
pub enum Left {
    /// All is as it was.
    Nothing,
    /// Time passed.
    Ticked,
    /// The event was made, and its answer goes to nobody.
    Unsaid {
        /// Whether the answer is a refusal.
        refused: bool,
    },
}

/// Why an event or a delivery was not made, or not answered, or what was made not brought to the volume. A place in memory answers `Gone`, or `NoMemory`
/// with `Left::Nothing` or `Left::Ticked`.
#[derive(Clone, Copy, Debug, PartialEq, Eq, Error)]
pub enum PlaceFault {
    #[error("out of memory")]
    NoMemory(Left),
    /// The store failed in this call. The event was made, unless it was only prepared; the outputs are as they were, and the place is stopped at the count of
    /// faults that its volume has now.
    #[error("the store failed")]
    StoreFault,
    /// The store failed before, and the volume had failed so often then. All is as it was.
    #[error("stopped at fault {0}")]
    Stopped(u64),
    /// The event is for another stream than the one of this incarnation, or than the next one if there is none. All is as it was.
    #[error("the place is at incarnation {0}")]
    Gone(u64),
    /// The numbers of the store's generations are used up. The event was made, and its answer goes to nobody.
    #[error("generations are used up")]
    Worn {
        /// Whether the answer is a refusal.
        refused: bool,
    },
}
