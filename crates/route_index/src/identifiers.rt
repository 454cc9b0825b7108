//! Numbers under the texts of one owner.

ghost use Rattle.std.specs.Prelude.{◌≡◌, None, OnOk, OnErr, IfSome, IfNone};
ghost use Rattle.std.specs.BTreeMap.{IsEmpty};
ghost use Rattle.route_index.specs.Names.{number_in, count_in, PutsIn, RemovesIn, KeepsIn, RemovesSome};

use js_base::NoMemory;
use std::alloc::Global;
use std::collections::BTreeMap;

/// The number under each text.
#[derive(Drop)]
pub(crate) struct Identifiers {
    numbers: BTreeMap<Vec<u8>, u64>,
}

impl Identifiers {
    /// No texts. It takes no memory.
    pub(crate) fn new(alloc: Global) -> Identifiers
        ensures empty { IsEmpty result.numbers }
    {
        Identifiers {
            numbers: BTreeMap::new(alloc),
        }
    }

    /// How many there are.
    pub(crate) fn len(&self) -> usize
        ensures value { result ≡ count_in self.now }
    {
        self.numbers.len()
    }

    /// The number under the text.
    pub(crate) fn number_of(&self, text: &[u8]) -> Option<u64>
        ensures value { result ≡ number_in self.now text.now }
    {
        self.numbers.get(text).copied()
    }

    /// Puts a number under a text that has none. An `Err` puts none.
    pub(crate) fn put(&mut self, text: Vec<u8>, number: u64) -> Result<(), NoMemory>
        requires absent { number_in self.old text.items ≡ None }
        ensures ok { OnOk result (PutsIn self.old self.new text.items number) }
        ensures err { OnErr result (KeepsIn self.old self.new) }
    {
        self.numbers.insert(text, number)?;
        Ok(())
    }

    /// Takes a text out, and answers its number. It takes no memory.
    pub(crate) fn remove(&mut self, text: &[u8]) -> Option<u64>
        ensures was { result ≡ number_in self.old text.now }
        ensures some { IfSome result (λ _. RemovesIn self.old self.new text.now) }
        ensures none { IfNone result (KeepsIn self.old self.new) }
    {
        let number = self.numbers.remove(text)?;
        Some(number)
    }

    /// Takes some text out, and answers its number. It takes no memory.
    pub(crate) fn pop(&mut self) -> Option<u64>
        ensures some { IfSome result (RemovesSome self.old self.new) }
        ensures none { IfNone result (KeepsIn self.old self.new) }
        ensures empty { IfNone result (count_in self.old ≡ 0) }
    {
        let (_, number) = self.numbers.pop_first()?;
        Some(number)
    }
}
