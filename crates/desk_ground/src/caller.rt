//! The client of a desk's session.

/// What a desk knows of the client of its session.
#[derive(Clone, Copy, Debug, PartialEq, Eq)]
pub struct Caller {
    /// The number of the last session that the desk opened, 0 if it opened none.
    pub session: u64,
    /// Whether that session is open.
    pub is_open: bool,
    /// Whether the client is told if nobody took a message.
    pub told: bool,
}
