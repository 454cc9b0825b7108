//! Why a consumer was not made.

use js_base::{ApiError, NoMemory};
use thiserror::Error;

/// Why a consumer was not made.
#[derive(Drop, Debug, Error)]
pub enum MakeFault {
    /// A rule forbids it.
    #[error("the consumer is refused")]
    Refused(ApiError),
    /// An allocation was refused.
    #[error("out of memory")]
    NoMemory,
}

impl From<NoMemory> for MakeFault {
    ghost use Rattle.consumer_state.specs.declared.fault.MakeFault.TheVariants.{NoMemory as OutOfMemory};
    ghost use Rattle.std.specs.Prelude.{◌≡◌};

    ghost from_gives = { λ fault made. made ≡ OutOfMemory };

    fn from(_: NoMemory) -> MakeFault {
        MakeFault::NoMemory
    }
}
