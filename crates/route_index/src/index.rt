//! The subscriptions, by their patterns.

ghost use Rattle.std.specs.Prelude.{◌≡◌, ℕ, [], ◌∷◌, ◌++◌, map, IfOk, OnOk, OnErr};
ghost use Rattle.std.specs.List.Sorted.{IsStrictlySortedBy};
ghost use Rattle.std.specs.Ordering.{nat_cmp};
ghost use Rattle.js_base.specs.Bytes.{has};
ghost use Rattle.js_base.specs.Subjects.{tokens};
ghost use Rattle.route_index.specs.Sought.{sought_ids};
ghost use Rattle.route_index.specs.Subs.{matching_ids, overlapping_ids, is_there, without, IsAbove};

use crate::ids::{Ids, put_id, remove_id};
use crate::pattern::Pattern;
use crate::search::{Query, search};
use crate::seek::Seek;
use crate::sub::Sub;
use js_base::NoMemory;
use std::alloc::{AllocError, Global};
use std::collections::BTreeMap;
use std::marker::Model;

/// Subscriptions in the order of their adding, and an index by the tokens of their patterns.
#[derive(Drop, Debug)]
pub struct RouteIndex {
    alloc: Global,
    /// The pattern of each subscription, by its number.
    patterns: BTreeMap<u64, Pattern>,
    /// The same the other way round.
    ids: Ids,
}

impl Model for RouteIndex {
    ghost use Rattle.std.specs.Prelude.{List};
    ghost use Rattle.route_index.specs.declared.sub.Sub.{Sub};
    ghost use Rattle.route_index.specs.Ids.{subs_of, Mirrors};

    ghost Value = { List Sub };

    ghost view = { λ index. subs_of index.patterns };

    ghost invariant = { λ index. Mirrors index.patterns index.ids };
}

impl RouteIndex {
    /// No subscriptions. It takes no memory.
    pub fn new(alloc: Global) -> RouteIndex
        ensures empty { result ≡ [] }
    {
        RouteIndex {
            alloc,
            patterns: BTreeMap::new(alloc),
            ids: BTreeMap::new(alloc),
        }
    }

    /// Adds a subscription, whose number is greater than those that are there: so no number is there twice, and the order of the numbers is
    /// that of the adding. An `Err` adds none.
    pub fn add(&mut self, sub: Sub) -> Result<(), NoMemory>
        requires above { IsAbove sub.id self.old }
        ensures ok { OnOk result (self.new ≡ self.old ++ sub ∷ []) }
        ensures err { OnErr result (self.new ≡ self.old) }
    {
        let Sub { id, pattern } = sub;
        let key = Pattern::of(self.alloc, pattern.as_slice())?;
        let text = Pattern::of(self.alloc, pattern.as_slice())?;
        put_id(&mut self.ids, self.alloc, key, id)?;
        match self.patterns.insert(id, text) {
            Ok(_) => Ok(()),
            Err(refused) => {
                let (id, text) = refused.value;
                remove_id(&mut self.ids, &text, id);
                Err(NoMemory)
            }
        }
    }

    /// Removes the subscription of this number, and tells whether there was one. It takes no memory.
    pub fn remove(&mut self, id: u64) -> bool
        ensures there { result ≡ is_there id self.old }
        ensures left { self.new ≡ without id self.old }
    {
        match self.patterns.remove(&id) {
            Some(text) => {
                remove_id(&mut self.ids, &text, id);
                true
            }
            None => false,
        }
    }

    /// The numbers of the subscriptions whose patterns match the subject, ascending, which is the order of their adding. `NoMemory` comes if
    /// the list or the search finds none.
    pub fn matching(&self, subject: &[u8]) -> Result<Vec<u64>, NoMemory>
        ensures ids { IfOk result (λ found. found.items ≡ matching_ids subject.now self.now) }
    {
        self.sought(Seek::Matching, subject)
    }

    /// The numbers of the subscriptions whose patterns overlap with this one, ascending, which is the order of their adding. `NoMemory` comes
    /// if the list or the search finds none.
    pub fn overlapping(&self, pattern: &[u8]) -> Result<Vec<u64>, NoMemory>
        ensures ids { IfOk result (λ found. found.items ≡ overlapping_ids pattern.now self.now) }
    {
        self.sought(Seek::Overlapping, pattern)
    }

    /// The numbers of the subscriptions that are sought by a text.
    fn sought(&self, seek: Seek, text: &[u8]) -> Result<Vec<u64>, NoMemory>
        ensures ids { IfOk result (λ found. found.items ≡ sought_ids seek text.now self.now) }
    {
        let mut found = self.unordered(seek, text)?;
        found.sort_unstable();
        found.dedup();
        Ok(found)
    }

    /// These numbers, out of order, and some more than once.
    fn unordered(&self, seek: Seek, text: &[u8]) -> Result<Vec<u64>, NoMemory>
        ensures ids { IfOk result (λ found. (id : ℕ) → has found.items id ≡ has (sought_ids seek text.now self.now) id) }
        ensures rise { OnOk result (IsStrictlySortedBy nat_cmp (sought_ids seek text.now self.now)) }
    {
        let tokens = tokens_of(self.alloc, text)?;
        let mut path = Pattern::new(self.alloc);
        let mut found = Vec::new(self.alloc);
        let query = Query {
            ids: &self.ids,
            alloc: self.alloc,
            seek,
        };
        search(&query, &mut path, tokens.as_slice(), &mut found)?;
        Ok(found)
    }
}

/// The tokens of a subject or a pattern.
fn tokens_of(alloc: Global, text: &[u8]) -> Result<Vec<&[u8]>, AllocError>
    ensures value { IfOk result (λ parts. map (λ part. part.now) parts.items ≡ tokens text.now) }
{
    text.split(|byte| *byte == b'.').collect(alloc)
}
