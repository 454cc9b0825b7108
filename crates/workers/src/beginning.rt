//! What all workers of a run know of its beginning.

ghost use Rattle.std.specs.Prelude.{ℕ, None, Option};
ghost use Rattle.session.specs.declared.ending.Limits.{Limits};
ghost use Rattle.workers.specs.Doors.{DoorTold, untold};
ghost use Rattle.workers.specs.Sessions.{no_limits};

use std::marker::Brand;
use std::sync::ledger::Ledger;

/// One name for a run's beginning, and its ledger of the links that are out: each worker has a share, of one while it has a link in hand.
pub trait Beginning: Ledger {
    /// What the door told.
    ghost begun: { DoorTold };

    /// The limits of each session.
    ghost limits: { Limits };

    /// How many links are accepted at most, if there is a limit.
    ghost accepts: { Option ℕ };
}

impl Beginning for Brand {
    ghost begun = { untold };

    ghost limits = { no_limits };

    ghost accepts = { None };
}
