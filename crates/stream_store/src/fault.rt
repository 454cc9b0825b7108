//! Why a store was not opened, a commit not made, or no room was asked for.

ghost use Rattle.std.specs.Prelude.{◌≡◌};
ghost use Rattle.stream_store.specs.Faults.{open_fault, records_fault};

use block_reading::MessagesFault;
use gate_log::LogFault;
use js_base::NoMemory;
use log_records::ReadFault;
use thiserror::Error;
use vol_disk::Failed;

/// Why a store was not opened. Files are those of the volume, and offsets those in the file.
#[derive(Clone, Copy, Debug, PartialEq, Eq, Error)]
pub enum OpenFault {
    /// The volume failed, and its count of faults rose.
    #[error("the volume failed")]
    Fault,
    /// The first fault of the volume stands there: a log does not begin as one does, its generation is 2^62 or more, or a batch passes the file's
    /// end or has another checksum, which is told at its gate; or, in the current log, the first batch is not one snapshot, or a record of a later batch is
    /// none or does not fit. If what the records of a batch make is unsound or more than a volume may hold, the last of them is told. Then come the blocks that
    /// the log tells of: the first message of the first of them that is wrong, or else the first stored message that is not at its spot. If no stream can
    /// be restored to all of that, the last record of the log is told.
    ///
    /// If no batch is open in either log, it is the first file with more than the first start of a place leaves if it is cut short: file 0 if it is longer
    /// than 39 bytes, and any other file if it has bytes. A log that is longer than 20 bytes is told at 20, its first gate, and any other file at 0.
    #[error("file {file} is damaged at {at}")]
    Damaged { file: u32, at: u64 },
    /// The format of a log has another version than 3.
    #[error("unknown version {0}")]
    UnknownVersion(u16),
    /// The volume was never used, and had no room for a first log. Its count of refusals rose.
    #[error("no room")]
    NoRoom,
    #[error("out of memory")]
    NoMemory,
}

impl OpenFault {
    /// The fault of a log in this file.
    pub(crate) fn of_log(file: u32, fault: LogFault) -> OpenFault
        ensures value { result ≡ open_fault file fault }
    {
        match fault {
            LogFault::Fault => OpenFault::Fault,
            LogFault::NoMemory => OpenFault::NoMemory,
            LogFault::Damaged(at) => OpenFault::Damaged { file, at },
            LogFault::UnknownVersion(version) => OpenFault::UnknownVersion(version),
        }
    }

    /// Why the batches of the log in this file give nothing.
    pub(crate) fn of_records(file: u32, fault: ReadFault) -> OpenFault
        ensures value { result ≡ records_fault file fault }
    {
        match fault {
            ReadFault::Fault => OpenFault::Fault,
            ReadFault::Damaged(at) => OpenFault::Damaged { file, at },
            ReadFault::NoMemory => OpenFault::NoMemory,
        }
    }
}

impl From<Failed> for OpenFault {
    ghost use Rattle.stream_store.specs.declared.fault.OpenFault.TheVariants.{Fault as VolumeFault};

    ghost from_gives = { λ failed fault. fault ≡ VolumeFault };

    fn from(_failed: Failed) -> OpenFault {
        OpenFault::Fault
    }
}

impl From<MessagesFault> for OpenFault {
    ghost use Rattle.stream_store.specs.Faults.{blocks_fault};

    ghost from_gives = { λ fault told. told ≡ blocks_fault fault };

    fn from(fault: MessagesFault) -> OpenFault {
        match fault {
            MessagesFault::Fault => OpenFault::Fault,
            MessagesFault::Damaged { file, at } => OpenFault::Damaged {
                file,
                at: at as u64,
            },
            MessagesFault::NoMemory => OpenFault::NoMemory,
        }
    }
}

impl From<NoMemory> for OpenFault {
    ghost use Rattle.stream_store.specs.declared.fault.OpenFault.TheVariants.{NoMemory as OutOfMemory};

    ghost from_gives = { λ refused fault. fault ≡ OutOfMemory };

    fn from(_refused: NoMemory) -> OpenFault {
        OpenFault::NoMemory
    }
}

/// Why a commit was not made. After `Worn` and `NoMemory` all is as it was, and the commit can be tried again.
#[derive(Clone, Copy, Debug, PartialEq, Eq, Error)]
pub enum CommitFault {
    /// The volume failed, and its count of faults rose. A crash leaves what the volume held before, or that with the commit: open the store again.
    #[error("the volume failed")]
    Fault,
    /// The log would be left, and the next one would have a generation of 2^62.
    #[error("numbers used up")]
    Worn,
    #[error("out of memory")]
    NoMemory,
}

impl From<Failed> for CommitFault {
    ghost use Rattle.stream_store.specs.declared.fault.CommitFault.TheVariants.{Fault as VolumeFault};

    ghost from_gives = { λ failed fault. fault ≡ VolumeFault };

    fn from(_failed: Failed) -> CommitFault {
        CommitFault::Fault
    }
}

impl From<NoMemory> for CommitFault {
    ghost use Rattle.stream_store.specs.declared.fault.CommitFault.TheVariants.{NoMemory as OutOfMemory};

    ghost from_gives = { λ refused fault. fault ≡ OutOfMemory };

    fn from(_refused: NoMemory) -> CommitFault {
        CommitFault::NoMemory
    }
}

/// Why it is not known whether there is room.
#[derive(Clone, Copy, Debug, PartialEq, Eq, Error)]
pub enum RoomFault {
    /// The volume failed, and its count of faults rose. A crash leaves what the volume held before: open the store again.
    #[error("the volume failed")]
    Fault,
    /// All is as it was.
    #[error("out of memory")]
    NoMemory,
}

impl From<Failed> for RoomFault {
    ghost use Rattle.stream_store.specs.declared.fault.RoomFault.TheVariants.{Fault as VolumeFault};

    ghost from_gives = { λ failed fault. fault ≡ VolumeFault };

    fn from(_failed: Failed) -> RoomFault {
        RoomFault::Fault
    }
}

impl From<NoMemory> for RoomFault {
    ghost use Rattle.stream_store.specs.declared.fault.RoomFault.TheVariants.{NoMemory as OutOfMemory};

    ghost from_gives = { λ refused fault. fault ≡ OutOfMemory };

    fn from(_refused: NoMemory) -> RoomFault {
        RoomFault::NoMemory
    }
}
