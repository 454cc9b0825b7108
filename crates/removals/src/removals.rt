//! A note of what leaves a stream.

ghost use Rattle.std.specs.Prelude.{◌≡◌, ◌+◌, ◌≤◌, Some, None, true, [], ◌∷◌, ◌++◌, OnOk, OnErr};
ghost use Rattle.js_model.specs.Events.{is_below};
ghost use Rattle.removals.specs.Removed.{extends, noted, HasPlace, NotesOne};

use crate::range::Range;
use js_base::NoMemory;
use std::alloc::Global;
use std::marker::Model;

/// The ranges of sequences that left a stream, in the order in which they were noted. The memory for them is asked for before.
#[derive(Drop, Debug)]
pub struct Removals {
    ranges: Vec<Range>,
    /// The sequences from this one on are not noted.
    below: Option<u64>,
}

impl Model for Removals {
    ghost use Rattle.std.specs.Prelude.{◌-◌, vec_len};
    ghost use Rattle.std.specs.Vec.{vec_capacity};
    ghost use Rattle.removals.specs.Removed.{Removed};

    ghost Value = { Removed };

    ghost view = { λ r. record { ranges = r.ranges.items; spare = vec_capacity r.ranges - vec_len r.ranges; below = r.below } };
}

impl Removals {
    /// No ranges. It takes no memory.
    pub fn new(alloc: Global) -> Removals
        ensures ranges { result.ranges ≡ [] }
        ensures below { result.below ≡ None }
    {
        Removals {
            ranges: Vec::new(alloc),
            below: None,
        }
    }

    /// Takes the memory for so many ranges more. An `Err` changes nothing.
    pub fn reserve(&mut self, more: u64) -> Result<(), NoMemory>
        ensures room { OnOk result (more ≤ self.new.spare) }
        ensures ranges { self.new.ranges ≡ self.old.ranges }
        ensures below { self.new.below ≡ self.old.below }
        ensures err { OnErr result (self.new ≡ self.old) }
    {
        match self.ranges.reserve(more as usize) {
            Ok(()) => Ok(()),
            Err(_) => Err(NoMemory),
        }
    }

    /// Forgets all ranges, and notes each sequence from now on. It keeps its memory.
    pub fn clear(&mut self)
        ensures ranges { self.new.ranges ≡ [] }
        ensures below { self.new.below ≡ None }
        ensures spare { self.old.spare ≤ self.new.spare }
    {
        self.ranges.clear();
        self.below = None;
    }

    /// Notes no sequence from this one on.
    pub fn skip_from(&mut self, seq: u64)
        ensures value { self.new ≡ record self.old { below = Some seq } }
    {
        self.below = Some(seq);
    }

    /// Notes that a sequence leaves: the last range gets it if it joins what left before it, and else it begins a range. One that is not to be noted
    /// changes nothing. It takes no memory.
    pub fn note(&mut self, seq: u64, joins: bool)
        requires room { is_below self.old.below seq ≡ true → HasPlace joins self.old }
        ensures noted { NotesOne seq joins self.old self.new }
    {
        if !self.is_noted(seq) {
            return;
        }
        if joins {
            self.widen(seq);
            return;
        }
        self.begin(seq);
    }

    /// Begins a range with a sequence.
    fn begin(&mut self, seq: u64)
        requires room { 1 ≤ self.old.spare }
        ensures ranges { self.new.ranges ≡ self.old.ranges ++ record { low = seq; high = seq } ∷ [] }
        ensures below { self.new.below ≡ self.old.below }
        ensures spare { self.new.spare + 1 ≡ self.old.spare }
    {
        self.ranges.push_reserved(Range {
            low: seq,
            high: seq,
        });
    }

    /// Lets the last range end with a sequence, or begins one with it if there is none.
    fn widen(&mut self, seq: u64)
        requires room { HasPlace true self.old }
        ensures ranges { self.new.ranges ≡ noted seq true self.old.ranges }
        ensures below { self.new.below ≡ self.old.below }
        ensures spare { self.old.spare ≤ self.new.spare + 1 }
        ensures joined { extends true self.old.ranges ≡ true → self.old.spare ≤ self.new.spare }
    {
        let Some(last) = self.ranges.pop() else {
            self.begin(seq);
            return;
        };
        self.ranges.push_reserved(Range {
            low: last.low,
            high: seq,
        });
    }

    /// Whether the sequence is to be noted.
    fn is_noted(&self, seq: u64) -> bool
        ensures value { result ≡ is_below self.now.below seq }
    {
        match self.below {
            Some(below) => seq < below,
            None => true,
        }
    }

    /// The ranges.
    pub fn as_slice(&self) -> &[Range]
        ensures value { result.now ≡ self.now.ranges }
    {
        self.ranges.as_slice()
    }
}
