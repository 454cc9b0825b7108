//! How many messages lie in each file.

ghost use Rattle.std.specs.Prelude.{◌≡◌, ◌+◌, ◌^◌, ◌<◌, ◌==◌, ◌&&◌, not, IfOk, OnOk, OnErr};
ghost use Rattle.block_table.specs.Counts.{count_in, one_at};

use js_base::NoMemory;
use std::alloc::Global;
use std::collections::BTreeMap;

/// How many messages lie in each file.
#[derive(Drop)]
pub(crate) struct FileCounts {
    counts: BTreeMap<u32, u64>,
}

impl FileCounts {
    /// Nothing is counted yet. It takes no memory.
    pub(crate) fn new(alloc: Global) -> FileCounts
        ensures empty { (file : _) → count_in result file ≡ 0 }
    {
        FileCounts {
            counts: BTreeMap::new(alloc),
        }
    }

    /// How many messages lie in the file.
    pub(crate) fn of(&self, file: u32) -> u64
        ensures value { result ≡ count_in self.now file }
    {
        match self.counts.get(&file) {
            Some(count) => *count,
            None => 0,
        }
    }

    /// Counts a message in the file. An `Err` counts none.
    pub(crate) fn add(&mut self, file: u32) -> Result<(), NoMemory>
        requires room { count_in self.old file + 1 < 2 ^ 64 }
        ensures ok { OnOk result ((other : _) → count_in self.new other ≡ count_in self.old other + one_at other file) }
        ensures err { OnErr result ((other : _) → count_in self.new other ≡ count_in self.old other) }
    {
        let count = self.of(file);
        self.counts.insert(file, count + 1)?;
        Ok(())
    }

    /// Counts a message less in the file, and tells whether the file is free then: none is left there, and it is not being written. It takes no
    /// memory.
    pub(crate) fn take(&mut self, file: u32, is_written: bool) -> bool
        requires some { 0 < count_in self.old file }
        ensures less { (other : _) → count_in self.new other + one_at other file ≡ count_in self.old other }
        ensures free { result ≡ (count_in self.new file == 0 && not is_written) }
    {
        if self.of(file) == 1 {
            self.counts.remove(&file);
            return !is_written;
        }
        if let Some(count) = self.counts.get_mut(&file) {
            *count -= 1;
        }
        false
    }

    /// The same counts again.
    pub(crate) fn copied(&self) -> Result<FileCounts, NoMemory>
        ensures same { IfOk result (λ copy. (file : _) → count_in copy file ≡ count_in self.now file) }
    {
        Ok(FileCounts {
            counts: self.counts.clone()?,
        })
    }

    /// Counts nothing any more. It takes no memory.
    pub(crate) fn clear(&mut self)
        ensures empty { (file : _) → count_in self.new file ≡ 0 }
    {
        self.counts.clear();
    }
}
