//! What a run came to.

/// What a run came to.
#[derive(Drop, PartialEq, Eq)]
pub(crate) struct Outcome {
    pub(crate) status: u8,
    /// What the links were given that came back.
    pub(crate) given: Vec<u8>,
    pub(crate) printed: Vec<u8>,
}
