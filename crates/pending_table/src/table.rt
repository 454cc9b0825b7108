//! The table of the deliveries that wait.

ghost use Rattle.std.specs.Prelude.{◌≡◌, ◌==◌, ◌+◌, ◌^◌, ◌<◌, ◌&&◌, [], None, filter, find, length, map, nat_le, nat_lt, not, if◌then◌else◌, IfSome, OnOk, OnErr};
ghost use Rattle.std.specs.List.{count_by, list_any, AllByRecursion};
ghost use Rattle.std.specs.Option.{option_map};
ghost use Rattle.js_model.specs.Acknowledge.{moved};
ghost use Rattle.js_model.specs.Deliver.{with_pending, without_first};
ghost use Rattle.js_model.specs.Lists.{Apart};
ghost use Rattle.pending_table.specs.Asked.{is_due, is_spent, with_found};
ghost use Rattle.pending_table.specs.Quiet.{IsQuiet};
ghost use Rattle.pending_table.specs.Table.{is_again};
ghost use Rattle.pending_table.specs.Trees.{entry_of, IsLeaf};

use crate::asked::Asked;
use crate::outlook::Outlook;
use crate::tree::{Fork, Tree};
use js_base::{Moment, NoMemory};
use js_model::Pending;
use std::alloc::Global;
use std::marker::Model;

/// Fewer than 2^32 deliveries in the order of their sequences. The cost of a call grows with the logarithm of their number, if no other is said.
#[derive(Drop)]
pub struct PendingTable {
    pub(crate) alloc: Global,
    pub(crate) tree: Tree,
    len: u64,
    /// How many were delivered more than once.
    again: u64,
    /// When the next one becomes due. What is taken out need not change it.
    outlook: Outlook,
}

impl Model for PendingTable {
    ghost use Rattle.std.specs.Prelude.{List};
    ghost use Rattle.js_model.specs.declared.consumer.Pending.{Pending};
    ghost use Rattle.pending_table.specs.Trees.{entries};
    ghost use Rattle.pending_table.specs.Table.{IsTable};

    ghost Value = { List Pending };

    ghost view = { λ table. entries table.tree };

    ghost invariant = { λ table. IsTable table.tree table.len table.again table.outlook };
}

impl PendingTable {
    /// No entries. It takes no memory.
    pub fn new(alloc: Global) -> PendingTable
        ensures empty { result ≡ [] }
    {
        PendingTable {
            alloc,
            tree: Tree::Empty,
            len: 0,
            again: 0,
            outlook: Outlook::empty(),
        }
    }

    /// How many entries there are, fewer than 2^32.
    pub fn len(&self) -> u64
        ensures value { result ≡ length self.now }
        ensures bound { result < 2 ^ 32 }
    {
        self.len
    }

    /// The least sequence.
    pub fn first(&self) -> Option<u64>
        ensures value { result ≡ option_map (λ p. p.seq) (find (λ p. nat_le 0 p.seq) self.now) }
    {
        self.tree.at_or_after(0)
    }

    /// The first entry from a sequence on.
    pub fn at_or_after(&self, seq: u64) -> Option<Pending>
        ensures value { result ≡ find (λ p. nat_le seq p.seq) self.now }
    {
        let least = self.tree.at_or_after(seq)?;
        self.tree.get(least)
    }

    /// How many entries have a count above 1.
    pub fn again(&self) -> u64
        ensures value { result ≡ count_by is_again self.now }
    {
        self.again
    }

    /// How often the message of the sequence was delivered, and when it is due again.
    pub fn get(&self, seq: u64) -> Option<(u64, Moment)>
        ensures value { result ≡ option_map (λ p. (p.count, p.due)) (find (λ p. p.seq == seq) self.now) }
    {
        let entry = self.tree.get(seq)?;
        Some((entry.count, entry.due))
    }

    /// Sets the entry of the sequence, or replaces it. An `Err` changes nothing.
    pub fn put(&mut self, seq: u64, count: u64, due: Moment) -> Result<(), NoMemory>
        requires room { length self.old + 1 < 2 ^ 32 }
        ensures ok { OnOk result (self.new ≡ with_pending self.old (record { seq = seq; count = count; due = due })) }
        ensures err { OnErr result (self.new ≡ self.old) }
    {
        let entry = Pending { seq, count, due };
        match self.tree.get(seq) {
            Some(old) => {
                self.again = self.again - again_of(old.count) + again_of(count);
                self.outlook = self.outlook.and(due);
                self.tree.replace(entry);
            }
            None => {
                let leaf = Fork::leaf(self.alloc, entry)?;
                self.insert(leaf);
            }
        }
        Ok(())
    }

    /// Takes the entry of the sequence out, and tells whether there was one. It takes no memory.
    pub fn ack(&mut self, seq: u64) -> bool
        ensures was { result ≡ list_any (λ p. p.seq == seq) self.old }
        ensures left { self.new ≡ filter (λ p. not (p.seq == seq)) self.old }
    {
        self.take(seq).is_some()
    }

    /// Puts a leaf at its place. It takes no memory.
    fn insert(&mut self, leaf: Box<Fork>)
        requires leaf { IsLeaf leaf.value }
        requires absent { find (λ p. p.seq == leaf.value.entry.seq) self.old ≡ None }
        requires room { length self.old + 1 < 2 ^ 32 }
        ensures value { self.new ≡ with_pending self.old leaf.value.entry }
    {
        self.len += 1;
        self.again += again_of(leaf.count());
        self.outlook = self.outlook.and(leaf.due());
        self.tree.insert(leaf);
    }

    /// Takes the entry of the sequence out as a leaf.
    fn take(&mut self, seq: u64) -> Option<Box<Fork>>
        ensures taken { entry_of result ≡ find (λ p. p.seq == seq) self.old }
        ensures leaf { IfSome result (λ f. IsLeaf f.value) }
        ensures left { self.new ≡ filter (λ p. not (p.seq == seq)) self.old }
    {
        let entry = self.tree.get(seq)?;
        self.len -= 1;
        self.again -= again_of(entry.count);
        self.tree.take(seq)
    }

    /// Takes out all entries up to the sequence, and tells how many these were. It takes no memory, and its cost grows with their number.
    pub fn ack_all(&mut self, seq: u64) -> u64
        ensures count { result + length self.new ≡ length self.old }
        ensures left { self.new ≡ filter (λ p. not (nat_le p.seq seq)) self.old }
    {
        let before = self.len;
        self.forget(0, seq);
        before - self.len
    }

    /// Takes out all entries from the one sequence up to the other. It takes no memory, and its cost grows with their number.
    pub fn forget(&mut self, low: u64, high: u64)
        ensures left { self.new ≡ filter (λ p. not (nat_le low p.seq && nat_le p.seq high)) self.old }
    {
        while let Some(seq) = self.first_in(low, high) {
            self.ack(seq);
        }
    }

    /// The least sequence from the one up to the other.
    fn first_in(&self, low: u64, high: u64) -> Option<u64>
        ensures value { result ≡ option_map (λ p. p.seq) (find (λ p. nat_le low p.seq && nat_le p.seq high) self.now) }
    {
        let seq = self.tree.at_or_after(low)?;
        if seq <= high { Some(seq) } else { None }
    }

    /// Makes the entry of the sequence due at the moment, and tells whether there is one. It takes no memory.
    pub fn set_due(&mut self, seq: u64, due: Moment) -> bool
        ensures is { result ≡ list_any (λ p. p.seq == seq) self.old }
        ensures value { self.new ≡ map (moved seq due) self.old }
    {
        let Some(entry) = self.tree.get(seq) else {
            return false;
        };
        self.outlook = self.outlook.and(due);
        self.tree.replace(Pending { due, ..entry });
        true
    }

    /// The least sequence whose entry is due at the moment.
    pub fn due(&self, now: Moment) -> Option<u64>
        ensures value { result ≡ option_map (λ p. p.seq) (find (is_due now) self.now) }
    {
        self.tree.first(&Asked::Due(now))
    }

    /// A moment after this one, before which no entry becomes due that is not due by then; `None` only if all are due. If `look_ahead` was called for this
    /// moment, or for an earlier one after which none became due, it looks at no entry; else it costs what `look_ahead` does.
    pub fn next_after(&self, now: Moment) -> Option<Moment>
        ensures quiet { AllByRecursion (IsQuiet now result) self.now }
        ensures after { IfSome result (λ next. now < next) }
    {
        if self.outlook.covers(now) {
            self.outlook.next
        } else {
            self.tree.next_after(now)
        }
    }

    /// Sees to it that `next_after` looks at no entry, for this moment and those before the next one at which an entry becomes due. It takes no memory. It
    /// passes over stretches of entries that are all due by the moment, or all due after it, and its cost grows with the number of the others.
    pub fn look_ahead(&mut self, now: Moment)
        ensures same { self.new ≡ self.old }
    {
        if !self.outlook.covers(now) {
            let next = self.tree.next_after(now);
            self.outlook = Outlook { since: now, next };
        }
    }

    /// Whether an entry is due at the moment and has this count. It costs what `take_spent` does.
    pub fn has_spent(&self, now: Moment, max: u64) -> bool
        ensures value { result ≡ list_any (is_spent now max) self.now }
    {
        self.tree.first(&Asked::Spent(now, max)).is_some()
    }

    /// Takes out the entry with the least sequence that is due at the moment and has this count, and tells the sequence. It takes no memory. Its
    /// cost is as said if no count is greater; else it grows with the number of entries whose count is.
    pub fn take_spent(&mut self, now: Moment, max: u64) -> Option<u64>
        ensures value { result ≡ option_map (λ p. p.seq) (find (is_spent now max) self.old) }
        ensures left { self.new ≡ without_first (is_spent now max) self.old }
    {
        let seq = self.tree.first(&Asked::Spent(now, max))?;
        self.ack(seq);
        Some(seq)
    }

    /// Moves the entry that `take_spent` would take out to another table, which has no sequence of this one, and tells whether there is one. It takes
    /// no memory, and costs what `take_spent` does.
    pub fn move_spent(&mut self, now: Moment, max: u64, into: &mut PendingTable) -> bool
        requires apart { Apart (map (λ p. p.seq) self.old) (map (λ p. p.seq) into.old) }
        requires room { length self.old + length into.old < 2 ^ 32 }
        ensures is { result ≡ list_any (is_spent now max) self.old }
        ensures left { self.new ≡ without_first (is_spent now max) self.old }
        ensures moved { into.new ≡ with_found into.old (find (is_spent now max) self.old) }
    {
        match self.take_spent_leaf(now, max) {
            Some(leaf) => {
                into.insert(leaf);
                true
            }
            None => false,
        }
    }

    /// Takes out the first entry that is due at the moment and has this count, as a leaf.
    fn take_spent_leaf(&mut self, now: Moment, max: u64) -> Option<Box<Fork>>
        ensures taken { entry_of result ≡ find (is_spent now max) self.old }
        ensures leaf { IfSome result (λ f. IsLeaf f.value) }
        ensures left { self.new ≡ without_first (is_spent now max) self.old }
    {
        let seq = self.tree.first(&Asked::Spent(now, max))?;
        self.take(seq)
    }
}

/// 1 for an entry with this count that was delivered more than once, else 0.
fn again_of(count: u64) -> u64
    ensures value { result ≡ (if nat_lt 1 count then 1 else 0) }
{
    if 1 < count { 1 } else { 0 }
}
