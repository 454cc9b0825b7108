//! Why a configuration is not read.

use js_base::{ApiError, NoMemory};
use thiserror::Error;

/// Why a configuration is not read.
#[derive(Drop, Debug, PartialEq, Eq, Error)]
pub enum ConfigFault {
    /// It is refused.
    #[error("refused by {}", .0.err_code)]
    Refused(ApiError),
    /// There was no memory.
    #[error("out of memory")]
    NoMemory,
}

impl From<NoMemory> for ConfigFault {
    ghost use Rattle.std.specs.Prelude.{◌≡◌};
    ghost use Rattle.consumer_config.specs.declared.fault.ConfigFault.TheVariants.{NoMemory as OutOfMemory};

    ghost from_gives = { λ _ fault. fault ≡ OutOfMemory };

    fn from(_refused: NoMemory) -> ConfigFault {
        ConfigFault::NoMemory
    }
}
