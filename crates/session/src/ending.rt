//! How much a session may take, and how it ends.

use js_api::DeskFault;
use js_base::Blob;
use nats_frames::FrameFault;

/// How much a session may take, and what it tells of the server.
#[derive(Drop, Debug)]
pub struct Limits {
    /// How many bytes are taken at most.
    pub input: u64,
    /// At how many takes in a row that were quiet the session ends.
    pub quiet: u64,
    /// The server's address, a text that needs no escape in JSON.
    pub host: Blob,
    pub port: u16,
    /// Whether the session lets time pass behind each turn. It does not where somebody else lets time pass for all sessions.
    pub ticks: bool,
}

/// Why a session was refused.
#[derive(Clone, Copy, Debug, PartialEq, Eq)]
pub enum Refusal {
    /// The input has this fault in the next operation's place, which is never want of memory.
    Frame(FrameFault),
    /// The text of a CONNECT is no JSON object, or an option in it is neither true nor false.
    BadConnect,
    /// What stands for a header block is none.
    BadHeaders,
    /// A desk call answered that its numbers are used up.
    NumbersUsed,
}

/// How a session ended.
#[derive(Clone, Copy, Debug, PartialEq, Eq)]
pub enum Ended {
    /// The link ended.
    Closed,
    /// What came is no operation that can be carried out.
    Refused(Refusal),
    /// The client reads too slowly: its frames would have been this long together, in bytes.
    Slow(u64),
    /// Two PINGs were not answered, the first of them for 240 seconds.
    Stale,
    /// The link failed.
    LinkFault,
    /// So many bytes were taken, or takes in a row were quiet, as the limits allow.
    InputLimit,
    NoMemory,
}

/// The end of a session by a fault of the desk. `TooManySubs` is answered by an error line, and `NoSession` does not come while the session is
/// open.
impl From<DeskFault> for Ended {
    ghost use Rattle.std.specs.Prelude.{◌≡◌};
    ghost use Rattle.session.specs.Stopping.{end_of_fault};

    ghost from_gives = { λ fault ended. ended ≡ end_of_fault fault };

    fn from(fault: DeskFault) -> Ended {
        match fault {
            DeskFault::Worn(_) => Ended::Refused(Refusal::NumbersUsed),
            DeskFault::NoMemory | DeskFault::TooManySubs | DeskFault::NoSession(_) => {
                Ended::NoMemory
            }
        }
    }
}
