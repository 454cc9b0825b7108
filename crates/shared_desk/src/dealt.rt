//! A lock of a hub that is being opened, with all seats that it was given.

ghost use Rattle.std.specs.Prelude.{◌≡◌, ◌≤◌, ◌<◌, List, [], IfErr, IfOk};
ghost use Rattle.std.specs.List.{AllByRecursion};
ghost use Rattle.histories.specs.Entries.{Entry};
ghost use Rattle.shared_desk.specs.Dealing.{AreAllSeats};
ghost use Rattle.shared_desk.specs.Laying.{IsDealt};

use std::alloc::Global;
use turn_lock::{Seat, Standing, Turns};

/// A lock, and all seats that it was given.
pub(crate) struct Dealt<S, K: Standing<S>> {
    pub(crate) lock: Turns<S, K>,
    pub(crate) seats: Vec<Seat<K>>,
}

impl<S, K: Standing<S>> Dealt<S, K> {
    /// A lock round the value. An `Err` gives the value back: there is no memory.
    pub(crate) fn new(alloc: Global, value: S, seats: u32) -> Result<Dealt<S, K>, S>
        requires seats { (0 < seats) × (seats ≤ 65) }
        requires stands { K.stands (K.opens value) [] value }
        ensures dealt { IfOk result (λ d. IsDealt (K.opens value) seats d.lock d.seats.items) }
        ensures err { IfErr result (λ x. x ≡ value) }
    {
        match Turns::new(alloc, value, seats) {
            Ok((lock, seats)) => Ok(Dealt { lock, seats }),
            Err((_, value)) => Err(value),
        }
    }

    /// Ends the lock again, and gives its value back. If no seat has seen anything, nothing was made of it.
    pub(crate) fn undo(self) -> S
        requires all { AreAllSeats self.lock self.seats.items }
        ensures stands { (entries : List Entry) × K.stands self.lock.opening entries result }
        ensures unmade { AllByRecursion (λ seat. seat.front ≡ []) self.seats.items → K.stands self.lock.opening [] result }
    {
        let Dealt { lock, seats } = self;
        let mut seats = seats;
        let mut all = seats.take_last();
        while !seats.is_empty() {
            all = lock.join(seats.take_last(), all);
        }
        lock.close(all)
    }
}
