//! Why bytes of a message block were not read.

ghost use Rattle.std.specs.Prelude.{◌≡◌};

use js_base::NoMemory;
use thiserror::Error;
use vol_disk::Failed;

/// Why the bytes at a spot were not read.
#[derive(Clone, Copy, Debug, PartialEq, Eq, Error)]
pub enum BlockFault {
    /// The volume failed, and its count of faults rose.
    #[error("the volume failed")]
    Fault,
    #[error("out of memory")]
    NoMemory,
}

impl From<Failed> for BlockFault {
    ghost use Rattle.message_block.specs.declared.fault.BlockFault.{BlockFault};

    ghost from_gives = { λ failed fault. fault ≡ BlockFault.Fault };

    fn from(_failed: Failed) -> BlockFault {
        BlockFault::Fault
    }
}

impl From<NoMemory> for BlockFault {
    ghost use Rattle.message_block.specs.declared.fault.BlockFault.{BlockFault};

    ghost from_gives = { λ refused fault. fault ≡ BlockFault.NoMemory };

    fn from(_refused: NoMemory) -> BlockFault {
        BlockFault::NoMemory
    }
}
