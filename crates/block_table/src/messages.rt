//! The stored messages of a table.

ghost use Rattle.std.specs.Prelude.{◌≡◌, ◌==◌, [], None, not, nat_le, filter, find, option_map, true, IfOk, IfSome, OnOk, OnErr};
ghost use Rattle.std.specs.Bool.{OnFalse};
ghost use Rattle.std.specs.List.{list_all};
ghost use Rattle.block_table.specs.Blocks.{is_used, spot_of};
ghost use Rattle.block_table.specs.Counts.{UsesAsBefore};
ghost use Rattle.block_table.specs.Puts.{is_above, is_within, with_placed, without};
ghost use Rattle.block_table.specs.Tables.{AreRising};

use crate::block::{Block, is_in};
use crate::counts::FileCounts;
use crate::placed::Placed;
use js_base::{NoMemory, Spot};
use std::alloc::Global;
use std::collections::BTreeMap;
use std::marker::Model;

/// Where the stored messages lie, in the order of their sequences.
#[derive(Drop)]
pub(crate) struct Messages {
    spots: BTreeMap<u64, Spot>,
    counts: FileCounts,
}

impl Model for Messages {
    ghost use Rattle.std.specs.Prelude.{List};
    ghost use Rattle.block_table.specs.declared.placed.Placed.{Placed};
    ghost use Rattle.block_table.specs.Counts.{shown, AreCounted};

    ghost Value = { List Placed };

    ghost view = { λ messages. shown messages.spots.entries };

    ghost invariant = { λ messages. AreCounted messages.spots.entries messages.counts };
}

impl Messages {
    /// No messages. It takes no memory.
    pub(crate) fn new(alloc: Global) -> Messages
        ensures empty { result ≡ [] }
    {
        Messages {
            spots: BTreeMap::new(alloc),
            counts: FileCounts::new(alloc),
        }
    }

    /// These messages, or `None` exactly if their sequences do not rise.
    pub(crate) fn of(alloc: Global, placed: &[Placed]) -> Result<Option<Messages>, NoMemory>
        ensures some { IfOk result (λ found. IfSome found (λ messages. (messages ≡ placed.now) × AreRising placed.now)) }
        ensures none { IfOk result (λ found. found ≡ None → ¬ AreRising placed.now) }
    {
        let mut messages = Messages::new(alloc);
        for one in placed {
            if !messages.is_above(one.seq) {
                return Ok(None);
            }
            messages.push(one.seq, one.spot)?;
        }
        Ok(Some(messages))
    }

    /// Whether each of these blocks holds a message.
    pub(crate) fn are_in_each(&self, blocks: &[Block]) -> bool
        ensures value { result ≡ list_all (λ k. is_used self.now k.file) blocks.now }
    {
        blocks.iter().all(|block| self.is_used(block.file))
    }

    /// Where the message lies, if it is stored.
    pub(crate) fn spot(&self, seq: u64) -> Option<Spot>
        ensures value { result ≡ spot_of self.now seq }
    {
        self.spots.get(&seq).copied()
    }

    /// The first message with the sequence or a greater one.
    pub(crate) fn at_or_after(&self, seq: u64) -> Option<Placed>
        ensures value { result ≡ find (λ p. nat_le seq p.seq) self.now }
    {
        match self.spots.range(seq..).next() {
            Some((seq, spot)) => Some(Placed {
                seq: *seq,
                spot: *spot,
            }),
            None => None,
        }
    }

    /// Whether no message has the sequence or a greater one.
    pub(crate) fn is_above(&self, seq: u64) -> bool
        ensures value { result ≡ is_above seq self.now }
    {
        self.at_or_after(seq).is_none()
    }

    /// Whether a message lies in the file.
    pub(crate) fn is_used(&self, file: u32) -> bool
        ensures value { result ≡ is_used self.now file }
    {
        self.counts.of(file) > 0
    }

    /// Adds a message above all others. An `Err` changes nothing.
    pub(crate) fn push(&mut self, seq: u64, spot: Spot) -> Result<(), NoMemory>
        requires above { is_above seq self.old ≡ true }
        ensures ok { OnOk result (self.new ≡ with_placed seq spot self.old) }
        ensures err { OnErr result (self.new ≡ self.old) }
    {
        let _few = self.spots.len();
        self.counts.add(spot.file)?;
        match self.spots.insert(seq, spot) {
            Ok(_) => Ok(()),
            Err(_) => {
                self.counts.take(spot.file, false);
                Err(NoMemory)
            }
        }
    }

    /// Takes out the messages with a sequence from `low` to `high`, and tells whether a file other than that of the block being written may hold none
    /// any more that held some. It takes no memory.
    pub(crate) fn remove(&mut self, low: u64, high: u64, writing: Option<Block>) -> bool
        ensures left { self.new ≡ without low high self.old }
        ensures kept { OnFalse result (UsesAsBefore self.old self.new writing) }
    {
        let mut emptied = false;
        while let Some(seq) = self.first_within(low, high) {
            if self.take(seq, writing) {
                emptied = true;
            }
        }
        emptied
    }

    /// The least sequence of a message from `low` to `high`.
    fn first_within(&self, low: u64, high: u64) -> Option<u64>
        ensures value { result ≡ option_map (λ p. p.seq) (find (λ p. is_within low high p.seq) self.now) }
    {
        if low > high {
            return None;
        }
        match self.spots.range(low..=high).next() {
            Some((seq, _)) => Some(*seq),
            None => None,
        }
    }

    /// Takes out a message, if it is stored, and tells whether its file held no other and is not that of the block being written.
    fn take(&mut self, seq: u64, writing: Option<Block>) -> bool
        ensures left { self.new ≡ filter (λ p. not (p.seq == seq)) self.old }
        ensures kept { OnFalse result (UsesAsBefore self.old self.new writing) }
    {
        match self.spots.remove(&seq) {
            Some(spot) => self.counts.take(spot.file, is_in(writing, spot.file)),
            None => false,
        }
    }

    /// The same messages again.
    pub(crate) fn copied(&self) -> Result<Messages, NoMemory>
        ensures same { IfOk result (λ copy. copy ≡ self.now) }
    {
        Ok(Messages {
            spots: self.spots.clone()?,
            counts: self.counts.copied()?,
        })
    }

    /// Takes out all messages. It takes no memory.
    pub(crate) fn clear(&mut self)
        ensures empty { self.new ≡ [] }
    {
        self.spots.clear();
        self.counts.clear();
    }
}
