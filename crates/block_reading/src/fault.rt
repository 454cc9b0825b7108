//! Why messages were not read.

ghost use Rattle.std.specs.Prelude.{◌≡◌};

use js_base::NoMemory;
use message_block::BlockFault;
use thiserror::Error;
use vol_disk::Failed;

/// Why the messages of a volume's blocks were not read.
#[derive(Clone, Copy, Debug, PartialEq, Eq, Error)]
pub enum MessagesFault {
    /// The volume failed, and its count of faults rose.
    #[error("the volume failed")]
    Fault,
    /// A block is no list of messages, at the first one that is wrong; or a stored message is not where it should be, at its spot.
    #[error("block {file} is damaged at {at}")]
    Damaged {
        /// The number of the file.
        file: u32,
        /// The offset in the file.
        at: u32,
    },
    #[error("out of memory")]
    NoMemory,
}

impl From<Failed> for MessagesFault {
    ghost use Rattle.block_reading.specs.declared.fault.MessagesFault.TheVariants.{Fault as VolumeFault};

    ghost from_gives = { λ failed fault. fault ≡ VolumeFault };

    fn from(_failed: Failed) -> MessagesFault {
        MessagesFault::Fault
    }
}

impl From<NoMemory> for MessagesFault {
    ghost use Rattle.block_reading.specs.declared.fault.MessagesFault.TheVariants.{NoMemory as OutOfMemory};

    ghost from_gives = { λ refused fault. fault ≡ OutOfMemory };

    fn from(_refused: NoMemory) -> MessagesFault {
        MessagesFault::NoMemory
    }
}

impl From<BlockFault> for MessagesFault {
    ghost use Rattle.block_reading.specs.Reading.{block_fault};

    ghost from_gives = { λ fault told. told ≡ block_fault fault };

    fn from(fault: BlockFault) -> MessagesFault {
        match fault {
            BlockFault::Fault => MessagesFault::Fault,
            BlockFault::NoMemory => MessagesFault::NoMemory,
        }
    }
}
