//! A counter behind a lock, from its making to its end, in one thread.

ghost use Rattle.std.specs.Prelude.{◌≡◌, ◌+◌, ◌≤◌, [], ◌∷◌, IfSome};
ghost use Rattle.histories.specs.Entries.{OfRouter};
ghost use Rattle.turn_lock.specs.Calls.{new_seat};
ghost use Rattle.turn_counter.specs.Counting.{left_by};

use crate::counter::{Counter, Counts, count_on, count_times, look};
use std::alloc::Global;
use std::sync::Wait;
use turn_lock::{Seat, Turns};

/// A lock round a new counter, and its one seat. `None` where there is no memory.
fn new_alone(alloc: Global) -> Option<(Turns<Counter, Counts>, Seat<Counts>)>
    ensures seats { IfSome result (λ t. t.0.seats ≡ 1) }
    ensures seat { IfSome result (λ t. t.1 ≡ new_seat t.0.lock OfRouter 0) }
{
    let Ok((turns, mut seats)) = Turns::<Counter, Counts>::new(alloc, Counter { count: 0 }, 1)
    else {
        return None;
    };
    let Some(seat) = seats.pop() else {
        unreachable!()
    };
    Some((turns, seat))
}

/// A lock round a new counter, and its two seats. `None` where there is no memory.
pub(crate) fn new_pair(
    alloc: Global,
) -> Option<(Turns<Counter, Counts>, Seat<Counts>, Seat<Counts>)>
    ensures seats { IfSome result (λ t. t.0.seats ≡ 2) }
    ensures first { IfSome result (λ t. t.1 ≡ new_seat t.0.lock OfRouter 0) }
    ensures second { IfSome result (λ t. t.2 ≡ new_seat t.0.lock OfRouter 1) }
{
    let Ok((turns, mut seats)) = Turns::<Counter, Counts>::new(alloc, Counter { count: 0 }, 2)
    else {
        return None;
    };
    let Some(first) = seats.pop() else {
        unreachable!()
    };
    let Some(second) = seats.pop() else {
        unreachable!()
    };
    Some((turns, first, second))
}

/// Ends the lock with its two seats, and answers the count: as many as both have counted.
pub(crate) fn end_pair(
    turns: Turns<Counter, Counts>,
    first: Seat<Counts>,
    second: Seat<Counts>,
) -> u64
    requires own { (first.lock ≡ turns.lock) × (second.lock ≡ turns.lock) }
    requires seats { turns.seats ≡ 2 }
    requires numbers { (first.numbers ≡ 0 ∷ []) × (second.numbers ≡ 1 ∷ []) }
    ensures count { result ≡ left_by first + left_by second }
{
    let seat = turns.join(first, second);
    turns.close(seat).count
}

/// One thread counts so many times, and nobody else wants a turn. `None` where there is no memory or no ticket left.
pub fn count_alone<R: Wait>(rt: &R, alloc: Global, times: u32) -> Option<u64>
    ensures count { IfSome result (λ n. n ≡ times) }
{
    let (turns, seat) = new_alone(alloc)?;
    let (seat, counted) = count_times(rt, &turns, seat, times);
    let count = turns.close(seat).count;
    if counted { Some(count) } else { None }
}

/// One seat counts, and another meets it and then looks: it sees the count. `None` where there is no memory or no ticket left.
pub fn meet_and_look<R: Wait>(rt: &R, alloc: Global) -> Option<u64>
    ensures seen { IfSome result (λ n. 1 ≤ n) }
{
    let (turns, first, second) = new_pair(alloc)?;
    let (mut first, counted) = count_on(rt, &turns, first);
    let second = turns.meet(second, &mut first);
    let (second, seen) = look(rt, &turns, second);
    end_pair(turns, first, second);
    if counted { seen } else { None }
}

/// Two seats count once each and become one, which ends the lock. `None` where there is no memory or no ticket left.
pub fn join_two<R: Wait>(rt: &R, alloc: Global) -> Option<u64>
    ensures count { IfSome result (λ n. n ≡ 2) }
{
    let (turns, first, second) = new_pair(alloc)?;
    let (first, one) = count_on(rt, &turns, first);
    let (second, other) = count_on(rt, &turns, second);
    let count = end_pair(turns, first, second);
    if one && other { Some(count) } else { None }
}
