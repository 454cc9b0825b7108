//! The block table.

ghost use Rattle.std.specs.Prelude.{◌≡◌, ◌-◌, ◌^◌, ◌<◌, ◌≤◌, ◌↔◌, ◌++◌, true, false, Some, None, find, nat_le, IfOk, IfSome, OnOk, OnErr, Err};
ghost use Rattle.std.specs.Option.{option_to_list};
ghost use Rattle.std.specs.Vec.{vec_len, vec_capacity};
ghost use Rattle.block_table.specs.Closing.{closed, is_left};
ghost use Rattle.block_table.specs.Blocks.{has_block, is_among, no_blocks, spot_of, used};
ghost use Rattle.block_table.specs.Placings.{free_from, lowest_from, placing};
ghost use Rattle.block_table.specs.Puts.{begins, end_of, fits, goes_on, is_above, put, put_at, removed};
ghost use Rattle.block_table.specs.Tables.{IsTable};

use crate::block::{Block, is_in};
use crate::fault::PutFault;
use crate::messages::Messages;
use crate::placed::Placed;
use crate::placing::Placing;
use js_base::{NoMemory, Spot};
use std::alloc::Global;
use std::marker::Model;

/// The lowest file that can be a block. Those below it are logs.
pub(crate) const FIRST_FILE: u32 = 2;

/// The number of files in a volume.
pub(crate) const FILES: u32 = 65_536;

/// From how many bytes on a block that holds no message is left behind a batch.
const LEFT_FROM: u32 = 1 << 20;

/// Where the stored messages of a stream lie in the blocks of a volume, and how far each block is written. A block is a file that holds a stored
/// message, or the one being written, which is the file of the message that was put last, unless `close` left it. A call costs the logarithm of how many messages and files
/// there are; only `remove` may look at each block, and so does the first message that begins one after that.
#[derive(Drop)]
pub struct BlockTable {
    pub(crate) messages: Messages,
    /// The blocks but the one being written, in any order.
    pub(crate) older: Vec<Block>,
    pub(crate) writing: Option<Block>,
    /// Each file from 2 to below this one is a block.
    pub(crate) free: u32,
}

impl Model for BlockTable {
    ghost use Rattle.block_table.specs.Blocks.{Blocks};
    ghost use Rattle.block_table.specs.Tables.{IsKept};

    ghost Value = { Blocks };

    ghost view = { λ t. record { placed = t.messages; older = t.older.items; writing = t.writing } };

    ghost invariant = { λ t. IsKept t.free (record { placed = t.messages; older = t.older.items; writing = t.writing }) };
}

impl BlockTable {
    /// A table without messages and blocks. It takes no memory.
    pub fn new(alloc: Global) -> BlockTable
        ensures empty { result ≡ no_blocks }
    {
        BlockTable {
            messages: Messages::new(alloc),
            older: Vec::new(alloc),
            writing: None,
            free: FIRST_FILE,
        }
    }

    /// The same table again. The cost grows with the number of messages.
    pub fn copied(&self, alloc: Global) -> Result<BlockTable, NoMemory>
        ensures same { IfOk result (λ copy. copy ≡ self.now) }
        ensures table { OnOk result (IsTable self.now) }
    {
        Ok(BlockTable {
            messages: self.messages.copied()?,
            older: Vec::from_slice(alloc, self.older.as_slice())?,
            writing: self.writing,
            free: self.free,
        })
    }

    /// Stores a message at a spot, whose block is the one being written from then on. A block without messages that was being written is none any
    /// more. It is `Misfit` exactly if the sequence is not above all others, or the spot neither begins where the block being written ends nor is at
    /// 0 of a file from 2 to 65,535 that is no block, or it ends past 2^32 - 1. An `Err` changes nothing.
    pub fn put(&mut self, seq: u64, spot: Spot) -> Result<(), PutFault>
        ensures ok { OnOk result (put seq spot self.old ≡ Some self.new) }
        ensures err { OnErr result (self.new ≡ self.old) }
        ensures misfit { (result ≡ Err PutFault.Misfit) ↔ (put seq spot self.old ≡ None) }
    {
        if !self.fits(seq, spot) {
            return Err(PutFault::Misfit);
        }
        let stored = if self.goes_on(spot) {
            self.go_on(seq, spot)
        } else {
            self.begin(seq, spot)
        };
        stored.map_err(|_| PutFault::NoMemory)
    }

    /// Stores a message that fits at the end of the block being written. An `Err` changes nothing.
    fn go_on(&mut self, seq: u64, spot: Spot) -> Result<(), NoMemory>
        requires fits { fits seq spot self.old ≡ true }
        requires on { goes_on spot self.old.writing ≡ true }
        ensures ok { OnOk result (self.new ≡ put_at seq spot self.old) }
        ensures err { OnErr result (self.new ≡ self.old) }
    {
        self.messages.push(seq, spot)?;
        self.writing = Some(Block {
            file: spot.file,
            end: spot.at + spot.len,
        });
        Ok(())
    }

    /// Stores a message that fits at the beginning of a file, which is the block being written from then on. An `Err` changes nothing.
    fn begin(&mut self, seq: u64, spot: Spot) -> Result<(), NoMemory>
        requires fits { fits seq spot self.old ≡ true }
        requires new { goes_on spot self.old.writing ≡ false }
        ensures ok { OnOk result (self.new ≡ put_at seq spot self.old) }
        ensures err { OnErr result (self.new ≡ self.old) }
    {
        self.older.reserve(1)?;
        self.messages.push(seq, spot)?;
        self.free = free_after(self.free, self.writing, &self.messages);
        add_used(&mut self.older, self.writing, &self.messages);
        self.writing = Some(Block {
            file: spot.file,
            end: spot.at + spot.len,
        });
        self.advance();
        Ok(())
    }

    /// Takes out the messages with a sequence from `low` to `high`. A block that holds none any more is none, unless it is being written. It takes
    /// no memory. The cost grows with the number of these messages, and with the number of blocks if one that is not being written lost its last message.
    pub fn remove(&mut self, low: u64, high: u64)
        ensures { self.new ≡ removed low high self.old }
    {
        if self.messages.remove(low, high, self.writing) {
            let messages = &self.messages;
            self.older.retain(|block| messages.is_used(block.file));
            self.free = FIRST_FILE;
        }
    }

    /// Ends a batch: the block being written is none any more if it has 1 MiB or more and holds no message. It takes no memory.
    pub fn close(&mut self)
        ensures { self.new ≡ closed self.old }
    {
        if let Some(block) = self.writing
            && is_left(block, &self.messages)
        {
            self.writing = None;
            self.free = self.free.min(block.file);
        }
    }

    /// Takes out all messages and blocks. It takes no memory.
    pub fn clear(&mut self)
        ensures { self.new ≡ no_blocks }
    {
        self.messages.clear();
        self.older.clear();
        self.writing = None;
        self.free = FIRST_FILE;
    }

    /// Where a message lies, if it is stored.
    pub fn spot(&self, seq: u64) -> Option<Spot>
        ensures { result ≡ spot_of self.now.placed seq }
    {
        self.messages.spot(seq)
    }

    /// The first stored message with the sequence or a greater one.
    pub fn at_or_after(&self, seq: u64) -> Option<Placed>
        ensures { result ≡ find (λ p. nat_le seq p.seq) self.now.placed }
    {
        self.messages.at_or_after(seq)
    }

    /// The blocks but the one being written. Their order means nothing: it is that in which they were begun, behind those with which the table was restored.
    pub fn older(&self) -> &[Block]
        ensures value { result.now ≡ self.now.older }
        ensures table { IsTable self.now }
    {
        self.older.as_slice()
    }

    /// The block being written.
    pub fn writing(&self) -> Option<Block>
        ensures value { result ≡ self.now.writing }
        ensures table { IsTable self.now }
    {
        self.writing
    }

    /// Whether the file is a block.
    pub fn has_block(&self, file: u32) -> bool
        ensures { result ≡ has_block self.now file }
    {
        self.is_written(file) || self.messages.is_used(file)
    }

    /// Whether the file is the one being written.
    fn is_written(&self, file: u32) -> bool
        ensures { result ≡ is_among (option_to_list self.now.writing) file }
    {
        is_in(self.writing, file)
    }

    /// Where the messages of a batch go that comes next.
    pub fn placing(&self) -> Placing
        ensures value { result ≡ placing self.now }
        ensures table { IsTable self.now }
    {
        Placing {
            from: FIRST_FILE,
            writing: self.writing,
        }
    }

    /// Counts the files as blocks that are, up to the lowest free one.
    fn advance(&mut self)
        ensures { self.new ≡ self.old }
    {
        self.free = self.free_from(self.free).unwrap_or(FILES);
    }

    /// The lowest file from 2 to 65,535, and from this one on, that is no block.
    pub(crate) fn free_from(&self, from: u32) -> Option<u32>
        ensures value { result ≡ free_from from self.now }
        ensures bound { IfSome result (λ file. file ≤ 65535) }
    {
        self.lowest_from(from.max(self.free))
    }

    /// The lowest file from this one on, up to 65,535, that is no block.
    fn lowest_from(&self, from: u32) -> Option<u32>
        ensures value { result ≡ lowest_from from self.now }
        ensures bound { IfSome result (λ file. file ≤ 65535) }
    {
        let mut file = from;
        while file < FILES {
            if !self.has_block(file) {
                return Some(file);
            }
            file += 1;
        }
        None
    }

    /// Whether the message can be stored at the spot.
    fn fits(&self, seq: u64, spot: Spot) -> bool
        ensures { result ≡ fits seq spot self.now }
    {
        self.is_above(seq) && ends_low(spot) && (self.goes_on(spot) || self.begins(spot))
    }

    /// Whether no message has the sequence or a greater one.
    fn is_above(&self, seq: u64) -> bool
        ensures { result ≡ is_above seq self.now.placed }
    {
        self.messages.is_above(seq)
    }

    /// Whether the spot begins where the block being written ends.
    fn goes_on(&self, spot: Spot) -> bool
        ensures { result ≡ goes_on spot self.now.writing }
    {
        match self.writing {
            Some(block) => spot.file == block.file && spot.at == block.end,
            None => false,
        }
    }

    /// Whether the spot begins a file that is no block.
    fn begins(&self, spot: Spot) -> bool
        ensures { result ≡ begins spot self.now }
    {
        spot.at == 0 && FIRST_FILE <= spot.file && spot.file < FILES && !self.has_block(spot.file)
    }
}

/// Whether the offset behind the spot is below 2^32.
fn ends_low(spot: Spot) -> bool
    ensures { result ≡ nat_le (end_of spot) (2 ^ 32 - 1) }
{
    spot.at <= u32::MAX - spot.len
}

/// Whether the block is so long that it is left once it holds none of the messages, and holds none.
fn is_left(block: Block, messages: &Messages) -> bool
    ensures { result ≡ is_left messages.now block }
{
    block.end >= LEFT_FROM && !messages.is_used(block.file)
}

/// Up to where each file is a block still, from 2 on, once the block that was being written is none if it holds none of the messages.
fn free_after(free: u32, writing: Option<Block>, messages: &Messages) -> u32
    requires low { 2 ≤ free }
    ensures low { 2 ≤ result }
    ensures kept { 2 < result → result ≡ free }
    ensures used { 2 < result → used messages.now (option_to_list writing) ≡ option_to_list writing }
{
    match writing {
        Some(block) if !messages.is_used(block.file) => FIRST_FILE,
        _ => free,
    }
}

/// Adds the block that was being written to the others, if it holds one of the messages.
fn add_used(older: &mut Vec<Block>, writing: Option<Block>, messages: &Messages)
    requires room { vec_len older.old < vec_capacity older.old }
    ensures { older.new.items ≡ older.old.items ++ used messages.now (option_to_list writing) }
{
    if let Some(block) = writing
        && messages.is_used(block.file)
    {
        older.push_reserved(block);
    }
}
