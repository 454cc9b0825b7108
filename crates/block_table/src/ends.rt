//! How far the blocks are written of which a table is made again.

ghost use Rattle.std.specs.Prelude.{◌≡◌, ◌<◌, ◌^◌, ◌++◌, ◌↔◌, None, IfOk, IfSome, IsTrue};
ghost use Rattle.std.specs.List.{list_all};
ghost use Rattle.std.specs.Option.{option_to_list};
ghost use Rattle.block_table.specs.Restoring.{AreEnds, EndsWith, IsNewBlock, end_at, lies_at};
ghost use Rattle.block_table.specs.Tables.{AreBlocks, IsFile};

use crate::block::Block;
use crate::placed::Placed;
use crate::table::{FILES, FIRST_FILE};
use js_base::{NoMemory, Spot};
use std::alloc::Global;
use std::collections::BTreeMap;

/// An end is told by four bytes.
fn law_end(end: u32)
    ensures low { end < 2 ^ 32 }
{}

/// How far files are written.
#[derive(Drop)]
pub(crate) struct FileEnds {
    ends: BTreeMap<u32, u32>,
}

impl FileEnds {
    /// No file is written. It takes no memory.
    fn new(alloc: Global) -> FileEnds
        ensures none { (file : _) → end_at result file ≡ None }
    {
        FileEnds {
            ends: BTreeMap::new(alloc),
        }
    }

    /// Up to where the file is written, if it is.
    fn of(&self, file: u32) -> Option<u32>
        ensures value { result ≡ end_at self.now file }
    {
        self.ends.get(&file).copied()
    }

    /// Adds a block if it is in a file that can be one, and of which there is none yet, and tells whether it is.
    fn add(&mut self, block: Block) -> Result<bool, NoMemory>
        ensures new { IfOk result (λ added. IsTrue added ↔ IsNewBlock self.old block) }
        ensures with { IfOk result (λ added. IsTrue added → EndsWith self.old block self.new) }
    {
        law_end(block.end);
        if !can_be_block(block.file) || self.of(block.file).is_some() {
            return Ok(false);
        }
        self.ends.insert(block.file, block.end)?;
        Ok(true)
    }

    /// Whether the spot lies in what is written of its file.
    fn has(&self, spot: Spot) -> bool
        ensures value { result ≡ lies_at self.now spot }
    {
        match self.of(spot.file) {
            Some(end) => spot.at as u64 + spot.len as u64 <= end as u64,
            None => false,
        }
    }

    /// Whether each of these messages lies in what is written of its file.
    pub(crate) fn have_all(&self, placed: &[Placed]) -> bool
        ensures value { result ≡ list_all (λ p. lies_at self.now p.spot) placed.now }
    {
        placed.iter().all(|one| self.has(one.spot))
    }
}

/// Whether the file can be a block.
fn can_be_block(file: u32) -> bool
    ensures value { IsTrue result ↔ IsFile file }
{
    FIRST_FILE <= file && file < FILES
}

/// How far the files of these blocks are written, or `None` exactly if two of them are in one file, or one is in a file that can be no block.
pub(crate) fn ends_of(
    alloc: Global,
    older: &[Block],
    writing: Option<Block>,
) -> Result<Option<FileEnds>, NoMemory>
    ensures some { IfOk result (λ found. IfSome found (AreEnds (older.now ++ option_to_list writing))) }
    ensures none { IfOk result (λ found. found ≡ None → ¬ AreBlocks (older.now ++ option_to_list writing)) }
{
    let mut ends = FileEnds::new(alloc);
    for block in older {
        if !ends.add(*block)? {
            return Ok(None);
        }
    }
    let Some(block) = writing else {
        return Ok(Some(ends));
    };
    if !ends.add(block)? {
        return Ok(None);
    }
    Ok(Some(ends))
}
