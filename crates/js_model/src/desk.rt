//! What a session's calls answer.

use js_base::{Frame, List};

/// Who took a published message.
#[derive(Clone, Copy, Debug, PartialEq, Eq)]
pub struct Taken {
    /// How many subscriptions.
    pub subscriptions: u64,
    /// Whether something other than a subscription did.
    pub other: bool,
}

/// What waited for a session.
#[derive(Drop, Debug)]
pub enum Collected {
    /// Frames in their order, and whether there are more.
    Frames { list: List<Frame>, more: bool },
    /// The session reads too slowly: its frames would be this long together.
    Slow { length: u64 },
}

/// A place in use, and the incarnation that it keeps.
#[derive(Clone, Copy, Debug, PartialEq, Eq)]
pub struct PlaceAt {
    pub place: u32,
    pub incarnation: u64,
}
