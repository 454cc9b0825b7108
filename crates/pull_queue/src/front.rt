//! What becomes of the front pull.

/// What became of the pull that waits first, if a message was to go to it.
#[derive(Clone, Copy, Debug, PartialEq, Eq)]
pub enum Front {
    /// It takes the message, and goes if that was the last one of its batch.
    Served,
    /// It takes fewer bytes than the message has, and is gone.
    TooSmall,
    /// No pull waits.
    Nobody,
}
