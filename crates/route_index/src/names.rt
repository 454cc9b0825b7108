//! Numbers under the texts of many owners.

ghost use Rattle.std.specs.Prelude.{◌≡◌, ◌+◌, None, Some, IsSome, OnOk, OnErr, IfSome, IfNone};
ghost use Rattle.std.specs.Ordering.{nat_cmp};
ghost use Rattle.std.specs.BTreeMap.{get};
ghost use Rattle.route_index.specs.Names.{number_of, count_of, HasNoTexts, KeepsNames, AddsName, DropsName, DropsSome, Cuts};

use crate::identifiers::Identifiers;
use js_base::NoMemory;
use std::alloc::Global;
use std::collections::BTreeMap;

/// Numbers, each under a text of an owner, as the identifiers of a session are. An owner is a number too. A call costs some steps in ordered maps.
#[derive(Drop)]
pub struct Names {
    owners: BTreeMap<u64, Identifiers>,
}

impl Names {
    /// No owner has a text. It takes no memory.
    pub fn new(alloc: Global) -> Names
        ensures empty { HasNoTexts result }
    {
        Names {
            owners: BTreeMap::new(alloc),
        }
    }

    /// The number under a text of the owner. It takes no memory.
    pub fn number_of(&self, owner: u64, text: &[u8]) -> Option<u64>
        ensures value { result ≡ number_of self.now owner text.now }
    {
        match self.owners.get(&owner) {
            Some(own) => own.number_of(text),
            None => None,
        }
    }

    /// How many texts the owner has.
    pub fn count_of(&self, owner: u64) -> usize
        ensures value { result ≡ count_of self.now owner }
    {
        match self.owners.get(&owner) {
            Some(own) => own.len(),
            None => 0,
        }
    }

    /// Makes room for the owner's texts. An `Err` makes none.
    fn make_room(&mut self, alloc: Global, owner: u64) -> Result<(), NoMemory>
        ensures kept { KeepsNames self.old self.new }
        ensures ok { OnOk result (IsSome (get nat_cmp self.new.owners owner)) }
    {
        if self.owners.contains_key(&owner) {
            return Ok(());
        }
        match self.owners.insert(owner, Identifiers::new(alloc)) {
            Ok(_) => Ok(()),
            Err(_) => Err(NoMemory),
        }
    }

    /// Puts a number under a text of an owner for which there is room. An `Err` puts none.
    fn put(&mut self, owner: u64, text: Vec<u8>, number: u64) -> Result<(), NoMemory>
        requires room { IsSome (get nat_cmp self.old.owners owner) }
        requires absent { number_of self.old owner text.items ≡ None }
        ensures ok { OnOk result (AddsName self.old self.new owner text.items number) }
        ensures err { OnErr result (KeepsNames self.old self.new) }
    {
        match self.owners.get_mut(&owner) {
            Some(own) => own.put(text, number),
            None => unreachable!(),
        }
    }

    /// Puts a number under a text that has none. An `Err` puts none.
    pub fn add(
        &mut self,
        alloc: Global,
        owner: u64,
        text: &[u8],
        number: u64,
    ) -> Result<(), NoMemory>
        requires absent { number_of self.old owner text.now ≡ None }
        ensures ok { OnOk result (AddsName self.old self.new owner text.now number) }
        ensures err { OnErr result (KeepsNames self.old self.new) }
    {
        let key = text.to_vec(alloc)?;
        self.make_room(alloc, owner)?;
        self.put(owner, key, number)
    }

    /// Takes a text of the owner out, and answers its number. It takes no memory.
    pub fn remove(&mut self, owner: u64, text: &[u8]) -> Option<u64>
        ensures was { result ≡ number_of self.old owner text.now }
        ensures some { IfSome result (λ _. DropsName self.old self.new owner text.now) }
        ensures none { IfNone result (KeepsNames self.old self.new) }
    {
        match self.owners.get_mut(&owner) {
            Some(own) => own.remove(text),
            None => None,
        }
    }

    /// Takes some text of the owner out, and answers its number. It takes no memory.
    pub fn pop(&mut self, owner: u64) -> Option<u64>
        ensures some { IfSome result (DropsSome self.old self.new owner) }
        ensures none { IfNone result (KeepsNames self.old self.new) }
        ensures empty { IfNone result (count_of self.old owner ≡ 0) }
    {
        match self.owners.get_mut(&owner) {
            Some(own) => own.pop(),
            None => None,
        }
    }

    /// Drops the room of an owner without texts. It takes no memory.
    pub fn forget(&mut self, owner: u64)
        requires empty { count_of self.old owner ≡ 0 }
        ensures kept { KeepsNames self.old self.new }
    {
        self.owners.remove(&owner);
    }

    /// Drops the room of an owner, if it has no texts.
    fn forget_if_empty(&mut self, owner: u64)
        ensures kept { KeepsNames self.old self.new }
    {
        if self.count_of(owner) == 0 {
            self.forget(owner);
        }
    }

    /// Takes a text of the owner out, and its room with the last one. It takes no memory.
    pub(crate) fn cut(&mut self, owner: u64, text: &[u8])
        ensures cut { Cuts self.old self.new owner text.now }
    {
        self.remove(owner, text);
        self.forget_if_empty(owner);
    }
}
