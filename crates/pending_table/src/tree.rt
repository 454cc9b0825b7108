//! The search tree of the entries: an AVL tree, of which each fork knows what holds of all its entries.

ghost use Rattle.std.specs.Prelude.{◌≡◌, ◌≤◌, ◌<◌, [], ◌∷◌, ◌++◌, ◌==◌, None, IfOk, IfSome, filter, find, map, nat_le, not, if◌then◌else◌};
ghost use Rattle.std.specs.List.{AllByRecursion};
ghost use Rattle.std.specs.Option.{option_map, option_to_list};
ghost use Rattle.js_model.specs.Deliver.{with_pending};
ghost use Rattle.js_model.specs.declared.consumer.Pending.{Pending};
ghost use Rattle.pending_table.specs.Asked.{passes, IsWithin};
ghost use Rattle.pending_table.specs.Quiet.{IsQuiet};
ghost use Rattle.pending_table.specs.Trees.{entries, entry_of, listed, AreSidesBounded, AreTopsBounded, IsBounded, IsBoundedFork, IsLeaf, IsOrdered, Lacks};

use crate::asked::Asked;
use crate::bounds::Bounds;
use js_base::{Moment, NoMemory};
use js_model::Pending;
use std::alloc::Global;
use std::mem;
use timer_bounds::earlier;

/// The entries in the order of their sequences.
#[cycle(tree)]
#[derive(Drop)]
pub(crate) enum Tree {
    Empty,
    Fork(Box<Fork>),
}

/// An entry, with those of lesser sequences on the left and those of greater ones on the right.
#[cycle(tree)]
#[derive(Drop)]
pub(crate) struct Fork {
    pub(crate) left: Tree,
    pub(crate) entry: Pending,
    pub(crate) right: Tree,
    bounds: Bounds,
    height: u8,
}

impl Tree {
    /// The entry of the sequence.
    pub(crate) fn get(&self, seq: u64) -> Option<Pending>
        requires ordered { IsOrdered self.now }
        ensures value { result ≡ find (λ p. p.seq == seq) (entries self.now) }
    {
        let Tree::Fork(fork) = self else {
            return None;
        };
        if seq < fork.entry.seq {
            fork.left.get(seq)
        } else if fork.entry.seq < seq {
            fork.right.get(seq)
        } else {
            Some(fork.entry)
        }
    }

    /// The least sequence that is at least this one.
    pub(crate) fn at_or_after(&self, seq: u64) -> Option<u64>
        requires ordered { IsOrdered self.now }
        ensures value { result ≡ option_map (λ p. p.seq) (find (λ p. nat_le seq p.seq) (entries self.now)) }
    {
        let Tree::Fork(fork) = self else {
            return None;
        };
        if fork.entry.seq < seq {
            return fork.right.at_or_after(seq);
        }
        match fork.left.at_or_after(seq) {
            Some(least) => Some(least),
            None => Some(fork.entry.seq),
        }
    }

    /// The first of the entries that are asked for.
    pub(crate) fn first(&self, asked: &Asked) -> Option<u64>
        requires bounded { IsBounded self.now }
        ensures value { result ≡ option_map (λ p. p.seq) (find (passes asked.now) (entries self.now)) }
    {
        let Tree::Fork(fork) = self else {
            return None;
        };
        if !fork.bounds.may_have(asked) {
            return None;
        }
        if let Some(seq) = fork.left.first(asked) {
            return Some(seq);
        }
        if asked.passes(&fork.entry) {
            return Some(fork.entry.seq);
        }
        fork.right.first(asked)
    }

    /// A moment after this one, before which no entry becomes due that is not due by then; `None` if all are due.
    pub(crate) fn next_after(&self, now: Moment) -> Option<Moment>
        requires bounded { IsBounded self.now }
        ensures quiet { AllByRecursion (IsQuiet now result) (entries self.now) }
        ensures after { IfSome result (λ next. now < next) }
    {
        let Tree::Fork(fork) = self else {
            return None;
        };
        if !fork.bounds.may_have_after(now) {
            return None;
        }
        if fork.bounds.are_after(now) {
            return Some(fork.bounds.due);
        }
        let sides = earlier(fork.left.next_after(now), fork.right.next_after(now));
        earlier(due_after(&fork.entry, now), sides)
    }

    /// Puts a leaf at its place. It takes no memory.
    pub(crate) fn insert(&mut self, leaf: Box<Fork>)
        requires bounded { IsBounded self.old }
        requires ordered { IsOrdered self.old }
        requires absent { Lacks leaf.value.entry.seq self.old }
        requires leaf { IsLeaf leaf.value }
        ensures entries { entries self.new ≡ with_pending (entries self.old) leaf.value.entry }
        ensures bounded { IsBounded self.new }
    {
        match self {
            Tree::Empty => *self = Tree::Fork(leaf),
            Tree::Fork(fork) => {
                if leaf.entry.seq < fork.entry.seq {
                    fork.left.insert(leaf);
                } else {
                    fork.right.insert(leaf);
                }
                self.balance();
            }
        }
    }

    /// Puts another entry in the place of that of its sequence, if there is one. It takes no memory.
    pub(crate) fn replace(&mut self, entry: Pending)
        requires bounded { IsBounded self.old }
        requires ordered { IsOrdered self.old }
        ensures entries { entries self.new ≡ map (λ p. if p.seq == entry.seq then entry else p) (entries self.old) }
        ensures bounded { IsBounded self.new }
    {
        let Tree::Fork(fork) = self else {
            return;
        };
        if entry.seq < fork.entry.seq {
            fork.left.replace(entry);
        } else if fork.entry.seq < entry.seq {
            fork.right.replace(entry);
        } else {
            fork.entry = entry;
        }
        fork.update();
    }

    /// Takes the entry of the sequence out, if there is one, as a leaf. It takes no memory.
    pub(crate) fn take(&mut self, seq: u64) -> Option<Box<Fork>>
        requires bounded { IsBounded self.old }
        requires ordered { IsOrdered self.old }
        ensures taken { entry_of result ≡ find (λ p. p.seq == seq) (entries self.old) }
        ensures leaf { IfSome result (λ f. IsLeaf f.value) }
        ensures left { entries self.new ≡ filter (λ p. not (p.seq == seq)) (entries self.old) }
        ensures bounded { IsBounded self.new }
    {
        let Tree::Fork(mut fork) = mem::replace(self, Tree::Empty) else {
            return None;
        };
        if seq < fork.entry.seq {
            let taken = fork.left.take(seq);
            *self = Tree::Fork(balanced(fork));
            taken
        } else if fork.entry.seq < seq {
            let taken = fork.right.take(seq);
            *self = Tree::Fork(balanced(fork));
            taken
        } else {
            let (left, leaf) = without_entry(fork);
            *self = left;
            Some(leaf)
        }
    }

    /// Takes the first entry out, as a leaf.
    fn pop_first(&mut self) -> Option<Box<Fork>>
        requires bounded { IsBounded self.old }
        ensures first { entries self.old ≡ option_to_list (entry_of result) ++ entries self.new }
        ensures leaf { IfSome result (λ f. IsLeaf f.value) }
        ensures bounded { IsBounded self.new }
        ensures none { result ≡ None → entries self.new ≡ [] }
    {
        let Tree::Fork(mut fork) = mem::replace(self, Tree::Empty) else {
            return None;
        };
        match fork.left.pop_first() {
            Some(first) => {
                *self = Tree::Fork(balanced(fork));
                Some(first)
            }
            None => {
                *self = mem::replace(&mut fork.right, Tree::Empty);
                fork.update();
                Some(fork)
            }
        }
    }

    /// Sets the bounds and the height of the top anew, and levels its sides.
    fn balance(&mut self)
        requires sides { AreTopsBounded self.old }
        ensures entries { entries self.new ≡ entries self.old }
        ensures bounded { IsBounded self.new }
    {
        if let Tree::Fork(fork) = mem::replace(self, Tree::Empty) {
            *self = Tree::Fork(balanced(fork));
        }
    }

    fn height(&self) -> u8 {
        match self {
            Tree::Empty => 0,
            Tree::Fork(fork) => fork.height,
        }
    }

    /// Bounds that also hold of all entries here.
    fn widen(&self, bounds: Bounds) -> Bounds
        requires bounded { IsBounded self.now }
        ensures before { (p : Pending) → IsWithin bounds p → IsWithin result p }
        ensures here { AllByRecursion (IsWithin result) (entries self.now) }
    {
        match self {
            Tree::Empty => bounds,
            Tree::Fork(fork) => bounds.and(fork.bounds),
        }
    }
}

impl Fork {
    /// A fork with nothing on its sides.
    pub(crate) fn leaf(alloc: Global, entry: Pending) -> Result<Box<Fork>, NoMemory>
        ensures leaf { IfOk result (λ f. (f.value.entry ≡ entry) × IsLeaf f.value) }
    {
        let leaf = Fork {
            left: Tree::Empty,
            entry,
            right: Tree::Empty,
            bounds: Bounds::of(&entry),
            height: 1,
        };
        Ok(Box::new(alloc, leaf)?)
    }

    /// How often the message of the entry was delivered.
    pub(crate) fn count(&self) -> u64
        ensures value { result ≡ self.now.entry.count }
    {
        self.entry.count
    }

    /// When the message of the entry is due again.
    pub(crate) fn due(&self) -> Moment
        ensures value { result ≡ self.now.entry.due }
    {
        self.entry.due
    }

    /// Sets the bounds and the height anew.
    fn update(&mut self)
        requires sides { AreSidesBounded self.old }
        ensures left { self.new.left ≡ self.old.left }
        ensures entry { self.new.entry ≡ self.old.entry }
        ensures right { self.new.right ≡ self.old.right }
        ensures bounded { IsBoundedFork self.new }
    {
        self.bounds = self.right.widen(self.left.widen(Bounds::of(&self.entry)));
        self.height = self
            .left
            .height()
            .max(self.right.height())
            .saturating_add(1);
    }
}

/// When the entry is due, if it is not due by the moment.
fn due_after(entry: &Pending, now: Moment) -> Option<Moment>
    ensures quiet { IsQuiet now result entry.now }
    ensures after { IfSome result (λ next. now < next) }
{
    if now.as_nanos() < entry.due.as_nanos() {
        Some(entry.due)
    } else {
        None
    }
}

/// The fork with its sides levelled, where their heights differ by at most two.
fn balanced(mut top: Box<Fork>) -> Box<Fork>
    requires sides { AreSidesBounded top.value }
    ensures entries { listed result.value ≡ listed top.value }
    ensures bounded { IsBoundedFork result.value }
{
    let (left, right) = (top.left.height(), top.right.height());
    if right.saturating_add(1) < left {
        lean_left(&mut top.left);
        rotated_right(top)
    } else if left.saturating_add(1) < right {
        lean_right(&mut top.right);
        rotated_left(top)
    } else {
        top.update();
        top
    }
}

/// What is left without the entry of the fork, and that entry as a leaf.
fn without_entry(mut fork: Box<Fork>) -> (Tree, Box<Fork>)
    requires sides { AreSidesBounded fork.value }
    ensures left { entries result.0 ≡ entries fork.value.left ++ entries fork.value.right }
    ensures bounded { IsBounded result.0 }
    ensures entry { result.1.value.entry ≡ fork.value.entry }
    ensures leaf { IsLeaf result.1.value }
{
    match fork.right.pop_first() {
        Some(mut next) => {
            mem::swap(&mut fork.entry, &mut next.entry);
            next.update();
            (Tree::Fork(balanced(fork)), next)
        }
        None => {
            let left = mem::replace(&mut fork.left, Tree::Empty);
            fork.update();
            (left, fork)
        }
    }
}

/// Sees that the left side of a tree is no lower than the right one.
fn lean_left(tree: &mut Tree)
    requires bounded { IsBounded tree.old }
    ensures entries { entries tree.new ≡ entries tree.old }
    ensures bounded { IsBounded tree.new }
{
    if let Tree::Fork(fork) = mem::replace(tree, Tree::Empty) {
        let is_lower = fork.left.height() < fork.right.height();
        *tree = Tree::Fork(if is_lower { rotated_left(fork) } else { fork });
    }
}

/// Sees that the right side of a tree is no lower than the left one.
fn lean_right(tree: &mut Tree)
    requires bounded { IsBounded tree.old }
    ensures entries { entries tree.new ≡ entries tree.old }
    ensures bounded { IsBounded tree.new }
{
    if let Tree::Fork(fork) = mem::replace(tree, Tree::Empty) {
        let is_lower = fork.right.height() < fork.left.height();
        *tree = Tree::Fork(if is_lower { rotated_right(fork) } else { fork });
    }
}

/// The fork with its left side at the top.
fn rotated_right(mut top: Box<Fork>) -> Box<Fork>
    requires sides { AreSidesBounded top.value }
    ensures entries { listed result.value ≡ listed top.value }
    ensures bounded { IsBoundedFork result.value }
{
    match mem::replace(&mut top.left, Tree::Empty) {
        Tree::Empty => {
            top.update();
            top
        }
        Tree::Fork(mut pivot) => {
            top.left = mem::replace(&mut pivot.right, Tree::Empty);
            top.update();
            pivot.right = Tree::Fork(top);
            pivot.update();
            pivot
        }
    }
}

/// The fork with its right side at the top.
fn rotated_left(mut top: Box<Fork>) -> Box<Fork>
    requires sides { AreSidesBounded top.value }
    ensures entries { listed result.value ≡ listed top.value }
    ensures bounded { IsBoundedFork result.value }
{
    match mem::replace(&mut top.right, Tree::Empty) {
        Tree::Empty => {
            top.update();
            top
        }
        Tree::Fork(mut pivot) => {
            top.right = mem::replace(&mut pivot.left, Tree::Empty);
            top.update();
            pivot.left = Tree::Fork(top);
            pivot.update();
            pivot
        }
    }
}
