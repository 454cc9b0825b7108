//! What the errors of an accept say of the door.

use std::io::{self, ErrorKind};

/// What an error of an accept says of the door, as Linux's manual of `accept(2)` has it.
#[derive(Clone, Copy, Debug, PartialEq, Eq)]
pub(crate) enum AcceptFault {
    /// No connection waits, a signal came, or a connection broke before it was accepted. The next accept may go well.
    Passing,
    /// The system has no descriptor or no memory for one more connection.
    Scarce,
    /// The door itself fails.
    Lasting,
}

// Linux's numbers of errors, where no kind stands for the one alone.
const ENOMEM: i32 = 12;

const ENFILE: i32 = 23;

const EMFILE: i32 = 24;

const ENONET: i32 = 64;

const EPROTO: i32 = 71;

const ENOPROTOOPT: i32 = 92;

const ENOBUFS: i32 = 105;

const EHOSTDOWN: i32 = 112;

impl AcceptFault {
    /// What the error says. On Linux an accept also answers the error that a connection had before it was accepted, which is passing.
    pub(crate) fn of(error: &io::Error) -> AcceptFault {
        match error.raw_os_error() {
            Some(ENOMEM | ENFILE | EMFILE | ENOBUFS) => return AcceptFault::Scarce,
            Some(ENONET | EPROTO | ENOPROTOOPT | EHOSTDOWN) => return AcceptFault::Passing,
            _ => {}
        }
        match error.kind() {
            ErrorKind::WouldBlock
            | ErrorKind::Interrupted
            | ErrorKind::ConnectionAborted
            | ErrorKind::ConnectionReset
            | ErrorKind::TimedOut
            | ErrorKind::NetworkDown
            | ErrorKind::NetworkUnreachable
            | ErrorKind::HostUnreachable
            | ErrorKind::PermissionDenied => AcceptFault::Passing,
            _ => AcceptFault::Lasting,
        }
    }
}
