//! Why the router refuses a call.

ghost use Rattle.std.specs.Prelude.{◌≡◌};
ghost use Rattle.js_model.specs.declared.route_fault.RouteFault.TheVariants.{NoMemory as OutOfMemory};

use js_base::NoMemory;
use std::alloc::AllocError;
use thiserror::Error;

/// Why the router refuses a call, which then changes nothing.
#[derive(Clone, Copy, Debug, PartialEq, Eq, Error)]
pub enum RouteFault {
    /// The session is not open. This is the last number that was given to one, 0 for none.
    #[error("no such session is open, the latest was {0}")]
    NoSession(u64),
    /// The session has 65,536 subscriptions.
    #[error("the session has too many subscriptions")]
    TooManySubs,
    #[error("out of memory")]
    NoMemory,
    /// The numbers of sessions, which are below 2^62, are used up.
    #[error("no session number is left")]
    Worn,
}

impl From<NoMemory> for RouteFault {
    ghost from_gives = { λ _ fault. fault ≡ OutOfMemory };

    fn from(_refused: NoMemory) -> RouteFault {
        RouteFault::NoMemory
    }
}

impl From<AllocError> for RouteFault {
    ghost from_gives = { λ _ fault. fault ≡ OutOfMemory };

    fn from(_refused: AllocError) -> RouteFault {
        RouteFault::NoMemory
    }
}
