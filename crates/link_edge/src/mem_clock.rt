//! A clock in memory.

ghost use Rattle.std.specs.Prelude.{◌≡◌, ◌++◌, ◌∷◌, [], Some};

use crate::clock::Clock;
use js_base::{List, Moment, NoMemory};
use std::marker::Model;

/// A clock that tells moments one after another, of which the last stays.
#[derive(Drop, Debug)]
pub struct MemClock {
    earlier: Vec<Moment>,
    next: usize,
    last: Moment,
}

impl Model for MemClock {
    ghost use Rattle.std.specs.Prelude.{ℕ, List, ◌++◌, ◌∷◌, [], drop};

    ghost Value = { List ℕ };

    ghost view = { λ s. drop s.next s.earlier.items ++ s.last ∷ [] };
}

impl MemClock {
    /// A clock that gives the earlier moments one after another, and then this last one for ever. These may come in any order.
    pub fn new(earlier: List<Moment>, last: Moment) -> MemClock
        ensures fresh { result ≡ earlier ++ last ∷ [] }
    {
        MemClock {
            earlier: earlier.into_vec(),
            next: 0,
            last,
        }
    }
}

impl Clock for MemClock {
    ghost to_come = { λ s. Some s };

    fn now(&mut self) -> Moment {
        if self.next >= self.earlier.len() {
            return self.last;
        }
        let moment = self.earlier[self.next];
        self.next += 1;
        moment
    }

    fn twin(&self) -> Result<MemClock, NoMemory> {
        let earlier = self.earlier.clone()?;
        Ok(MemClock {
            earlier,
            next: self.next,
            last: self.last,
        })
    }
}
