//! Why an operation ends the session.

use crate::ending::Refusal;
use js_api::DeskFault;
use js_base::NoMemory;

/// Why an operation ends the session.
#[derive(Clone, Copy)]
pub(crate) enum Stop {
    /// It is refused, or the desk's numbers are used up.
    Refused(Refusal),
    /// What waits for the client is too long: so many bytes.
    Slow(u64),
    NoMemory,
}

impl From<NoMemory> for Stop {
    ghost use Rattle.std.specs.Prelude.{◌≡◌};
    ghost use Rattle.session.specs.declared.stop.Stop.TheVariants.{NoMemory as OutOfMemory};

    ghost from_gives = { λ _ stop. stop ≡ OutOfMemory };

    fn from(_refused: NoMemory) -> Stop {
        Stop::NoMemory
    }
}

/// The stop for a fault of the desk by which the session ends. `TooManySubs` is answered by an error line, and `NoSession` does not come while
/// the session is open.
impl From<DeskFault> for Stop {
    ghost use Rattle.std.specs.Prelude.{◌≡◌};
    ghost use Rattle.session.specs.Stopping.{cause_of, end_of_fault};

    ghost from_gives = { λ fault stop. cause_of stop ≡ end_of_fault fault };

    fn from(fault: DeskFault) -> Stop {
        match fault {
            DeskFault::Worn(_) => Stop::Refused(Refusal::NumbersUsed),
            DeskFault::NoMemory | DeskFault::TooManySubs | DeskFault::NoSession(_) => {
                Stop::NoMemory
            }
        }
    }
}
