//! Why the catalog refuses a call.

ghost use Rattle.std.specs.Prelude.{◌≡◌};
ghost use Rattle.js_model.specs.declared.catalog_fault.CatalogFault.TheVariants.{NoMemory as OutOfMemory};

use js_base::{ApiError, NoMemory};
use std::alloc::AllocError;
use thiserror::Error;

/// Why a stream was not added, or its subjects were not changed.
#[derive(Drop, Debug, Error)]
pub enum CatalogFault {
    #[error("refused")]
    Refused(ApiError),
    #[error("out of memory")]
    NoMemory,
}

impl From<NoMemory> for CatalogFault {
    ghost from_gives = { λ _ fault. fault ≡ OutOfMemory };

    fn from(_refused: NoMemory) -> CatalogFault {
        CatalogFault::NoMemory
    }
}

impl From<AllocError> for CatalogFault {
    ghost from_gives = { λ _ fault. fault ≡ OutOfMemory };

    fn from(_refused: AllocError) -> CatalogFault {
        CatalogFault::NoMemory
    }
}
