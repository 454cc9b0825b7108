//! Why a desk does not answer a call.

use thiserror::Error;

/// Why a call of a desk ends without its answer. What it made until then stands.
#[derive(Clone, Copy, Debug, PartialEq, Eq, Error)]
pub enum DeskFault {
    #[error("out of memory")]
    NoMemory,
    /// The session has all the subscriptions that it may have, and none of them under this identifier.
    #[error("too many subscriptions")]
    TooManySubs,
    /// The numbers of sessions, of turns or of a store's generations are used up: this is the last one.
    #[error("no number is left after {0}")]
    Worn(u64),
    /// No session is open. The last one that this desk had has this number, or 0 if it had none.
    #[error("no session is open, the last one was {0}")]
    NoSession(u64),
}
