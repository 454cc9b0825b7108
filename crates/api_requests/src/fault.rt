//! Why a call is not carried out.

use js_base::{ApiError, NoMemory};
use std::alloc::AllocError;
use thiserror::Error;

/// Why a call of the API is not carried out.
#[derive(Drop, Debug, PartialEq, Eq, Error)]
pub enum ApiFault {
    /// It is refused, and this is the answer.
    #[error("refused")]
    Refused(ApiError),
    #[error("out of memory")]
    NoMemory,
}

impl From<NoMemory> for ApiFault {
    ghost use Rattle.std.specs.Prelude.{◌≡◌};
    ghost use Rattle.api_requests.specs.declared.fault.ApiFault.TheVariants.{NoMemory as OutOfMemory};

    ghost from_gives = { λ _ fault. fault ≡ OutOfMemory };

    fn from(_refused: NoMemory) -> ApiFault {
        ApiFault::NoMemory
    }
}

impl From<AllocError> for ApiFault {
    ghost use Rattle.std.specs.Prelude.{◌≡◌};
    ghost use Rattle.api_requests.specs.declared.fault.ApiFault.TheVariants.{NoMemory as OutOfMemory};

    ghost from_gives = { λ _ fault. fault ≡ OutOfMemory };

    fn from(_refused: AllocError) -> ApiFault {
        ApiFault::NoMemory
    }
}
