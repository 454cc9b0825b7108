//! Why a publish is no acknowledgement.

use js_base::NoMemory;
use thiserror::Error;

/// Why a publish is no acknowledgement.
#[derive(Clone, Copy, Debug, PartialEq, Eq, Error)]
pub enum AckFault {
    /// The subject has not nine tokens, of which the first two are `$JS` and `ACK`.
    #[error("no subject of an acknowledgement")]
    NotAck,
    /// The token at this place, counted from 0, is no name or no number below 2^62, whichever should stand there.
    #[error("a wrong token at {0}")]
    BadToken(usize),
    /// The body is of no form.
    #[error("a wrong body")]
    BadBody,
    /// There was no memory.
    #[error("out of memory")]
    NoMemory,
}

impl From<NoMemory> for AckFault {
    ghost use Rattle.std.specs.Prelude.{◌≡◌};
    ghost use Rattle.ack_parse.specs.declared.fault.AckFault.TheVariants.{NoMemory as OutOfMemory};

    ghost from_gives = { λ _ fault. fault ≡ OutOfMemory };

    fn from(_refused: NoMemory) -> AckFault {
        AckFault::NoMemory
    }
}
