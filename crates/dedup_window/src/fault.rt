//! Why a window refuses an id.

use thiserror::Error;

/// Why an id was not added.
#[derive(Drop, Debug, Error)]
pub enum WindowFault {
    /// The window has 2^20 ids.
    #[error("window full")]
    Full,
    #[error("out of memory")]
    NoMemory,
}
