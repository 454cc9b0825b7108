//! The places of the streams, by their names.

ghost use Rattle.std.specs.Prelude.{◌≡◌, Some, None, OnOk, OnErr};
ghost use Rattle.js_base.specs.Bytes.{Bytes};
ghost use Rattle.catalog.specs.Names.{place_in, Sets};

use js_base::{Name, NoMemory};
use std::alloc::Global;
use std::collections::BTreeMap;

/// The place of each name, in an ordered map.
#[derive(Drop, Debug)]
pub(crate) struct Names {
    alloc: Global,
    places: BTreeMap<Vec<u8>, u32>,
}

impl Names {
    /// No names. It takes no memory.
    pub(crate) fn new(alloc: Global) -> Names
        ensures empty { (name : Bytes) → place_in result name ≡ None }
    {
        Names {
            alloc,
            places: BTreeMap::new(alloc),
        }
    }

    /// The place of the name.
    pub(crate) fn get(&self, name: &Name) -> Option<u32>
        ensures value { result ≡ place_in self.now name.now }
    {
        self.places.get(name.as_slice()).copied()
    }

    /// Puts the name at a place. An `Err` changes nothing.
    pub(crate) fn put(&mut self, name: &Name, place: u32) -> Result<(), NoMemory>
        ensures ok { OnOk result (Sets self.old self.new name.now (Some place)) }
        ensures err { OnErr result ((name : Bytes) → place_in self.new name ≡ place_in self.old name) }
    {
        let key = Vec::from_slice(self.alloc, name.as_slice())?;
        self.places.insert(key, place)?;
        Ok(())
    }

    /// Lets go of the name. It takes no memory.
    pub(crate) fn remove(&mut self, name: &Name)
        ensures gone { Sets self.old self.new name.now None }
    {
        self.places.remove(name.as_slice());
    }
}
