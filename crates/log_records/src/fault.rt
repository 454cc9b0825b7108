//! Why the batches of a log give nothing.

ghost use Rattle.std.specs.Prelude.{◌≡◌};

use js_base::NoMemory;
use thiserror::Error;

/// Why the batches of a log give nothing. Offsets are those in the log's file.
#[derive(Clone, Copy, Debug, PartialEq, Eq, Error)]
pub enum ReadFault {
    /// The volume failed, and its count of faults rose.
    #[error("the volume failed")]
    Fault,
    /// The first fault of the records stands there: the first batch is no snapshot (told at its gate if it is empty), or a record of a later batch is none
    /// or does not fit. If what the records of a batch make is unsound or more than a volume may hold, the last of them is told; and so is a snapshot, also
    /// if its messages do not lie in its blocks, where it begins.
    #[error("damaged at {0}")]
    Damaged(u64),
    #[error("out of memory")]
    NoMemory,
}

impl From<NoMemory> for ReadFault {
    ghost use Rattle.log_records.specs.declared.fault.ReadFault.TheVariants.{NoMemory as OutOfMemory};

    ghost from_gives = { λ refused fault. fault ≡ OutOfMemory };

    fn from(_refused: NoMemory) -> ReadFault {
        ReadFault::NoMemory
    }
}
