//! A lock is made.

ghost use Rattle.std.specs.Prelude.{◌≡◌, ℕ, suc, ◌<◌, ◌≤◌, [], ◌∷◌, ◌++◌, vec_len, vec_capacity, Some, IfOk, IfErr};
ghost use Rattle.turn_lock.specs.declared.fault.TurnFault.TheVariants.{NoMemory};
ghost use Rattle.turn_lock.specs.declared.kept.Kept.{Kept};
ghost use Rattle.turn_lock.specs.Views.{opened, kept_back};
ghost use Rattle.turn_lock.specs.Seats.{shown};
ghost use Rattle.turn_lock.specs.Calls.{new_seat, new_seats};

use crate::fault::TurnFault;
use crate::kept::Kept;
use crate::noted::{Entries, Noted, Notes};
use crate::plays::Deal;
use crate::rule::Terms;
use crate::seat::Seat;
use crate::sight::Sight;
use crate::standing::{Lawful, Standing};
use crate::turns::Turns;
use atomic_table::Table;
use histories::{Past, Start};
use std::alloc::{AllocFailed, Global};
use std::marker::PhantomData;

/// The opening state of a value.
pub(crate) struct Opens<P> {
    standing: PhantomData<P>,
}

impl<S, P: Standing<S>> Notes<S, Start> for Opens<P> {
    ghost note = { P.opens };
}

/// No entries.
pub(crate) struct Nothing;

impl Notes<(), Past> for Nothing {
    ghost note = { λ _. [] };
}

/// The value of the one slot.
fn only<S>(mut slots: Vec<Option<Kept<S>>>) -> S
    requires one { (k : Kept S) × (slots.items ≡ Some k ∷ []) }
    ensures value { (k : Kept S) → slots.items ≡ Some k ∷ [] → result ≡ k.value }
{
    let found = slots.pop();
    slots.destroy_empty();
    let Some(slot) = found else { unreachable!() };
    let Some(kept) = slot else { unreachable!() };
    let Kept { value, entries: _ } = kept;
    value
}

/// Puts a seat behind the others, for which there is room.
fn add<P: Lawful>(row: &mut Vec<Seat<P>>, seat: Seat<P>)
    requires room { vec_len row.old < vec_capacity row.old }
    ensures items { row.new.items ≡ row.old.items ++ seat ∷ [] }
    ensures capacity { vec_capacity row.old ≤ vec_capacity row.new }
{
    let pushed = row.push(seat);
    let Ok(()) = pushed else { unreachable!() };
}

impl<S, P: Standing<S>> Turns<S, P> {
    /// The table and its first seat, or the value where there is no memory.
    fn lay(
        alloc: Global,
        value: S,
        seats: u32,
    ) -> Result<(Turns<S, P>, atomic_table::Seat<Option<Kept<S>>, Sight>), S>
        requires some { 0 < seats }
        requires stands { P.stands (P.opens value) [] value }
        ensures lock { IfOk result (λ t. (t.0.opening ≡ P.opens value) × (t.0.seats ≡ seats)) }
        ensures seat { IfOk result (λ t. (t.1.table_id ≡ t.0.lock) × (t.1.me ≡ (opened (P.opens value) seats, []))) }
        ensures err { IfErr result (λ x. x ≡ value) }
    {
        let opening = Noted::<Start>::of::<S, Opens<P>>(&value);
        let entries = Entries::of::<(), Nothing>(&());
        let terms = Terms { opening, seats };
        let mut slots = Vec::new(alloc);
        if let Err(failed) = slots.push(Some(Kept { value, entries })) {
            let AllocFailed { value: slot } = failed;
            slots.destroy_empty();
            let Some(kept) = slot else { unreachable!() };
            let Kept { value, entries: _ } = kept;
            return Err(value);
        }
        match Table::new(alloc, &[0, 0], slots, &terms) {
            Ok((table, seat)) => Ok((Turns { table }, seat)),
            Err(refused) => Err(only(refused.slots)),
        }
    }

    /// Hands out a seat with the greatest number that is left, while another one is left.
    fn deal(&self, first: &mut atomic_table::Seat<Option<Kept<S>>, Sight>) -> Seat<P>
        requires own { first.old.table_id ≡ self.now.lock }
        requires lawful { P.lawful first.old.me.0.opening [] }
        requires left { (n : ℕ) × (first.old.me ≡ (opened first.old.me.0.opening (suc (suc n)), [])) }
        ensures table { first.new.table_id ≡ first.old.table_id }
        ensures first { first.new.me ≡ (kept_back first.old.me.0, []) }
        ensures dealt { (n : ℕ) → first.old.me ≡ (opened first.old.me.0.opening (suc n), []) → result ≡ new_seat first.old.table_id first.old.me.0.opening n }
    {
        let seat = self.table.shared.split_seat::<Deal>(first);
        Seat {
            badge: seat.into_badge(),
            standing: PhantomData,
        }
    }

    /// A lock round the value, and its seats, each with a number of its own. The value stands for the empty history, and its state is the one in
    /// which the history opens.
    ///
    /// `TurnFault::NoMemory` gives the value back.
    pub fn new(
        alloc: Global,
        value: S,
        seats: u32,
    ) -> Result<(Turns<S, P>, Vec<Seat<P>>), (TurnFault, S)>
        requires seats { (0 < seats) × (seats ≤ 65) }
        requires stands { P.stands (P.opens value) [] value }
        ensures lock { IfOk result (λ t. (t.0.opening ≡ P.opens value) × (t.0.seats ≡ seats)) }
        ensures seats { IfOk result (λ t. t.1.items ≡ new_seats t.0.lock (P.opens value) seats) }
        ensures err { IfErr result (λ e. (e.0 ≡ NoMemory) × (e.1 ≡ value)) }
    {
        let Ok(mut row) = Vec::with_capacity(alloc, seats as usize) else {
            return Err((TurnFault::NoMemory, value));
        };
        match Turns::lay(alloc, value, seats) {
            Ok((turns, mut first)) => {
                for _ in 1..seats {
                    let seat = turns.deal(&mut first);
                    add(&mut row, seat);
                }
                add(
                    &mut row,
                    Seat {
                        badge: first.into_badge(),
                        standing: PhantomData,
                    },
                );
                Ok((turns, row))
            }
            Err(value) => {
                row.destroy_empty();
                Err((TurnFault::NoMemory, value))
            }
        }
    }
}
