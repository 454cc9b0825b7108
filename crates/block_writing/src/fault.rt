//! Why a commit was not planned.

ghost use Rattle.std.specs.Prelude.{◌≡◌};

use js_base::NoMemory;
use thiserror::Error;

/// Why a commit was not planned.
#[derive(Clone, Copy, Debug, PartialEq, Eq, Error)]
pub enum PlanFault {
    /// A message needs a new block, and no file is free.
    #[error("no file is free for a block")]
    NoRoom,
    #[error("out of memory")]
    NoMemory,
}

impl From<NoMemory> for PlanFault {
    ghost use Rattle.block_writing.specs.declared.fault.PlanFault.TheVariants.{NoMemory as OutOfMemory};

    ghost from_gives = { λ refused fault. fault ≡ OutOfMemory };

    fn from(_refused: NoMemory) -> PlanFault {
        PlanFault::NoMemory
    }
}
