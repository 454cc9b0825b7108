//! A counter behind a lock, in several threads.

ghost use Rattle.std.specs.Prelude.{◌≡◌, ◌+◌, [], ◌∷◌, IfSome};
ghost use Rattle.std.specs.Thread.{IsSync};
ghost use Rattle.histories.specs.Entries.{OfRouter};
ghost use Rattle.turn_lock.specs.Calls.{new_seat};
ghost use Rattle.turn_counter.specs.Counting.{HasCounted, left_by};

use crate::counter::{Counter, Counts, count_times};
use crate::counting::{end_pair, new_pair};
use std::alloc::Global;
use std::sync::Wait;
use std::thread;
use std::thread::Threads;
use turn_lock::{Seat, Turns};

/// What a thread that counted gives back: its seat, and whether it could count each time.
type Counted = (Seat<Counts>, bool);

/// Two threads count so many times each, through these seats.
fn count_pair<R: Threads + Wait + Sync>(
    rt: &R,
    turns: &Turns<Counter, Counts>,
    first: Seat<Counts>,
    second: Seat<Counts>,
    times: u32,
) -> (Counted, Counted)
    requires own { (first.lock ≡ turns.now.lock) × (second.lock ≡ turns.now.lock) }
    ensures first { HasCounted times first result.0.0 result.0.1 }
    ensures second { HasCounted times second result.1.0 result.1.1 }
{
    thread::join(
        rt,
        move ||
            requires { first.lock ≡ turns.now.lock }
            ensures { HasCounted times first result.0 result.1 }
        { count_times(rt, turns, first, times) },
        move ||
            requires { second.lock ≡ turns.now.lock }
            ensures { HasCounted times second result.0 result.1 }
        { count_times(rt, turns, second, times) },
    )
}

/// Two threads count so many times each, through seats of their own: the count is then twice as great. `None` where there is no memory or no
/// ticket left.
pub fn count_both<R: Threads + Wait + Sync>(rt: &R, alloc: Global, times: u32) -> Option<u64>
    ensures count { IfSome result (λ n. n ≡ times + times) }
{
    let (turns, first, second) = new_pair(alloc)?;
    let (left, right) = count_pair(rt, &turns, first, second, times);
    let (first, one) = left;
    let (second, other) = right;
    let count = end_pair(turns, first, second);
    if one && other { Some(count) } else { None }
}

/// Two seats of a lock.
type Pair = (Seat<Counts>, Seat<Counts>);

/// A lock round a new counter, and its four seats. `None` where there is no memory.
fn new_four(alloc: Global) -> Option<(Turns<Counter, Counts>, Pair, Pair)>
    ensures seats { IfSome result (λ t. t.0.seats ≡ 4) }
    ensures left { IfSome result (λ t. t.1 ≡ (new_seat t.0.lock OfRouter 0, new_seat t.0.lock OfRouter 1)) }
    ensures right { IfSome result (λ t. t.2 ≡ (new_seat t.0.lock OfRouter 2, new_seat t.0.lock OfRouter 3)) }
{
    let Ok((turns, mut seats)) = Turns::<Counter, Counts>::new(alloc, Counter { count: 0 }, 4)
    else {
        return None;
    };
    let Some(first) = seats.pop() else {
        unreachable!()
    };
    let Some(second) = seats.pop() else {
        unreachable!()
    };
    let Some(third) = seats.pop() else {
        unreachable!()
    };
    let Some(fourth) = seats.pop() else {
        unreachable!()
    };
    Some((turns, (first, second), (third, fourth)))
}

/// Ends the lock with its four seats, and answers the count: as many as all have counted.
fn end_four(turns: Turns<Counter, Counts>, left: Pair, right: Pair) -> u64
    requires left { (left.0.lock ≡ turns.lock) × (left.1.lock ≡ turns.lock) }
    requires right { (right.0.lock ≡ turns.lock) × (right.1.lock ≡ turns.lock) }
    requires seats { turns.seats ≡ 4 }
    requires numbers { (left.0.numbers ≡ 0 ∷ []) × (left.1.numbers ≡ 1 ∷ []) × (right.0.numbers ≡ 2 ∷ []) × (right.1.numbers ≡ 3 ∷ []) }
    ensures count { result ≡ (left_by left.0 + left_by left.1) + (left_by right.0 + left_by right.1) }
{
    let (first, second) = left;
    let (third, fourth) = right;
    let left = turns.join(first, second);
    let right = turns.join(third, fourth);
    let seat = turns.join(left, right);
    turns.close(seat).count
}

/// Four threads count so many times each, through seats of their own: the count is then four times as great. `None` where there is no memory or
/// no ticket left.
pub fn count_four<R: Threads + Wait + Sync>(rt: &R, alloc: Global, times: u32) -> Option<u64>
    ensures count { IfSome result (λ n. n ≡ (times + times) + (times + times)) }
{
    let (turns, left, right) = new_four(alloc)?;
    let (first, second) = left;
    let (third, fourth) = right;
    let lock = &turns;
    let (left, right) = thread::join(
        rt,
        move ||
            requires { IsSync R.row × (first.lock ≡ lock.now.lock) × (second.lock ≡ lock.now.lock) }
            ensures { HasCounted times first result.0.0 result.0.1 × HasCounted times second result.1.0 result.1.1 }
        { count_pair(rt, lock, first, second, times) },
        move ||
            requires { IsSync R.row × (third.lock ≡ lock.now.lock) × (fourth.lock ≡ lock.now.lock) }
            ensures { HasCounted times third result.0.0 result.0.1 × HasCounted times fourth result.1.0 result.1.1 }
        { count_pair(rt, lock, third, fourth, times) },
    );
    let ((first, one), (second, two)) = left;
    let ((third, three), (fourth, four)) = right;
    let count = end_four(turns, (first, second), (third, fourth));
    if one && two && three && four {
        Some(count)
    } else {
        None
    }
}
