//! Why a pull is not taken.

use thiserror::Error;

/// Why a pull was not added.
#[derive(Drop, Debug, Error)]
pub enum PullFault {
    /// `max_waiting` pulls wait already.
    #[error("too many pulls wait")]
    Full,
    /// An allocation was refused.
    #[error("out of memory")]
    NoMemory,
}
