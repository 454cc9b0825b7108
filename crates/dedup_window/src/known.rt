//! The ids of a window, by their texts.

ghost use Rattle.std.specs.Prelude.{◌≡◌, Some, None, OnOk, OnErr};
ghost use Rattle.js_base.specs.Bytes.{Bytes};
ghost use Rattle.dedup_window.specs.Known.{added_in, Sets};

use js_base::{Moment, NoMemory};
use std::alloc::Global;
use std::collections::BTreeMap;

/// With which sequence and when an id was added.
#[derive(Clone, Copy)]
pub(crate) struct Added {
    pub(crate) seq: u64,
    pub(crate) at: Moment,
}

/// How each id was added, in an ordered map. Its keys are copies of the texts, since a slice finds no `Blob` in it.
#[derive(Drop)]
pub(crate) struct KnownIds {
    alloc: Global,
    ids: BTreeMap<Vec<u8>, Added>,
}

impl KnownIds {
    /// No ids. It takes no memory.
    pub(crate) fn new(alloc: Global) -> KnownIds
        ensures empty { (text : Bytes) → added_in result text ≡ None }
    {
        KnownIds {
            alloc,
            ids: BTreeMap::new(alloc),
        }
    }

    /// How the id was added.
    pub(crate) fn get(&self, id: &[u8]) -> Option<Added>
        ensures value { result ≡ added_in self.now id.now }
    {
        self.ids.get(id).copied()
    }

    /// Puts an id in, in place of one of the same text. An `Err` changes nothing.
    pub(crate) fn put(&mut self, id: &[u8], added: Added) -> Result<(), NoMemory>
        ensures ok { OnOk result (Sets self.old self.new id.now (Some added)) }
        ensures err { OnErr result ((text : Bytes) → added_in self.new text ≡ added_in self.old text) }
    {
        let key = Vec::from_slice(self.alloc, id)?;
        self.ids.insert(key, added)?;
        Ok(())
    }

    /// Takes the id out. It takes no memory.
    pub(crate) fn remove(&mut self, id: &[u8])
        ensures gone { Sets self.old self.new id.now None }
    {
        self.ids.remove(id);
    }
}
