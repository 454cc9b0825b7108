//! Why a lock refuses.

use thiserror::Error;

/// Why a lock refuses.
#[derive(Clone, Copy, Debug, PartialEq, Eq, Error)]
pub enum TurnFault {
    /// All tickets are drawn: the next one would be this, 2^62. Only `Turns::enter` answers so.
    #[error("no ticket below {0} is left")]
    Worn(u64),
    /// There is no memory for the lock. Only `Turns::new` answers so.
    #[error("out of memory")]
    NoMemory,
}
