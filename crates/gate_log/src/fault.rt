//! Why a call on a log failed.

ghost use Rattle.std.specs.Prelude.{◌≡◌};

use js_base::NoMemory;
use thiserror::Error;
use vol_disk::Failed;

/// Why a log was not opened, or a batch not read. Offsets are those in the file.
#[derive(Clone, Copy, Debug, PartialEq, Eq, Error)]
pub enum LogFault {
    /// The volume failed, and its count of faults rose.
    #[error("the volume failed")]
    Fault,
    #[error("out of memory")]
    NoMemory,
    /// The file does not begin as a log does, at 0; its first gate is open and its generation 2^62 or more, at 8, or the checksum of its head
    /// not that of the bytes before, at 16; or the batch of an open gate passes the file's end, or its checksum is not that of its records, at that gate.
    #[error("damaged at {0}")]
    Damaged(u64),
    /// The format has another version than 3.
    #[error("unknown version {0}")]
    UnknownVersion(u16),
}

impl From<Failed> for LogFault {
    ghost use Rattle.gate_log.specs.declared.fault.LogFault.{LogFault};

    ghost from_gives = { λ failed fault. fault ≡ LogFault.Fault };

    fn from(_failed: Failed) -> LogFault {
        LogFault::Fault
    }
}

impl From<NoMemory> for LogFault {
    ghost use Rattle.gate_log.specs.declared.fault.LogFault.{LogFault};

    ghost from_gives = { λ refused fault. fault ≡ LogFault.NoMemory };

    fn from(_refused: NoMemory) -> LogFault {
        LogFault::NoMemory
    }
}
