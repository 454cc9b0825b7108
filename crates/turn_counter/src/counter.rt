//! A counter behind a lock.

ghost use Rattle.std.specs.Prelude.{◌≡◌, ◌≤◌, ⊤, [], ◌∷◌, length, IfSome};
ghost use Rattle.histories.specs.Entries.{OfRouter};
ghost use Rattle.turn_counter.specs.Counting.{counting_by, HasCounted};

use histories::Past;
use std::sync::Wait;
use turn_lock::{Entries, Lawful, Noted, Notes, Seat, Standing, Turns};

/// A counter, which stands for every list of its length.
#[derive(Drop)]
pub struct Counter {
    pub count: u64,
}

/// How a counter stands for histories.
pub struct Counts;

impl Lawful for Counts {
    ghost lawful = { λ opening entries. ⊤ };
}

impl Standing<Counter> for Counts {
    ghost opens = { λ counter. OfRouter };

    ghost stands = { λ opening entries counter. counter.count ≡ length entries };

    ghost all_lawful = { λ opening entries counter fits. tt };
}

// One entry, with the number of the seat.
struct One;

impl Notes<Noted<u64>, Past> for One {
    ghost note = { λ number. counting_by number.value ∷ [] };
}

// No entry.
struct Nothing;

impl Notes<(), Past> for Nothing {
    ghost note = { λ _. [] };
}

/// Counts one on, in a turn; false where no ticket is left or the count is at its end.
pub fn count_on<R: Wait>(
    rt: &R,
    turns: &Turns<Counter, Counts>,
    seat: Seat<Counts>,
) -> (Seat<Counts>, bool)
    requires own { seat.lock ≡ turns.now.lock }
    ensures counted { HasCounted 1 seat result.0 result.1 }
{
    let mut held = match turns.enter(rt, seat) {
        Ok(held) => held,
        Err((_, seat)) => return (seat, false),
    };
    let Some(next) = held.value.count.checked_add(1) else {
        return (turns.leave(held, Entries::of::<(), Nothing>(&())), false);
    };
    held.value.count = next;
    let entries = Entries::of::<Noted<u64>, One>(&held.seat.number());
    (turns.leave(held, entries), true)
}

/// Counts on so many times, in a turn each; false where one of them could not.
pub fn count_times<R: Wait>(
    rt: &R,
    turns: &Turns<Counter, Counts>,
    seat: Seat<Counts>,
    times: u32,
) -> (Seat<Counts>, bool)
    requires own { seat.lock ≡ turns.now.lock }
    ensures counted { HasCounted times seat result.0 result.1 }
{
    let mut seat = seat;
    for _ in 0..times {
        let (next, counted) = count_on(rt, turns, seat);
        seat = next;
        if !counted {
            return (seat, false);
        }
    }
    (seat, true)
}

/// The count, as a turn finds it; `None` where no ticket is left.
pub fn look<R: Wait>(
    rt: &R,
    turns: &Turns<Counter, Counts>,
    seat: Seat<Counts>,
) -> (Seat<Counts>, Option<u64>)
    requires own { seat.lock ≡ turns.now.lock }
    ensures lock { result.0.lock ≡ seat.lock }
    ensures numbers { result.0.numbers ≡ seat.numbers }
    ensures seen { IfSome result.1 (λ n. length seat.front ≤ n) }
{
    let held = match turns.enter(rt, seat) {
        Ok(held) => held,
        Err((_, seat)) => return (seat, None),
    };
    let count = held.value.count;
    let entries = Entries::of::<(), Nothing>(&());
    (turns.leave(held, entries), Some(count))
}
