//! A clock that stands still.

use js_base::{Moment, NoMemory};
use link_edge::Clock;

/// A clock that tells one moment again and again.
#[derive(Drop)]
pub(crate) struct StillClock {
    pub(crate) moment: Moment,
}

impl Clock for StillClock {
    ghost use Rattle.std.specs.Prelude.{None};

    ghost to_come = { λ _. None };

    fn now(&mut self) -> Moment {
        self.moment
    }

    fn twin(&self) -> Result<StillClock, NoMemory> {
        Ok(StillClock {
            moment: self.moment,
        })
    }
}
