//! The subscriptions, by a tree of the tokens of their patterns.

ghost use Rattle.std.specs.Prelude.{◌≡◌, ℕ, Some, [], ◌∷◌, ◌++◌, IfOk, OnOk, OnErr};
ghost use Rattle.std.specs.List.{list_any};
ghost use Rattle.std.specs.List.Sorted.{IsStrictlySortedBy};
ghost use Rattle.std.specs.Ordering.{nat_cmp};
ghost use Rattle.js_base.specs.Bytes.{has};
ghost use Rattle.route_index.specs.Subs.{matching_ids, is_there, without, IsAbove};

use crate::pattern::Pattern;
use crate::sub::Sub;
use crate::test::Test;
use crate::tree::{ROOT, Tree};
use js_base::NoMemory;
use std::alloc::Global;
use std::collections::BTreeMap;
use std::marker::Model;

/// Subscriptions in the order of their adding, and a tree of the tokens of their patterns.
#[derive(Drop)]
pub struct RouteTree {
    alloc: Global,
    /// The pattern of each subscription, by its number.
    patterns: BTreeMap<u64, Pattern>,
    /// Their numbers, by the tokens of their patterns.
    tree: Tree,
}

impl Model for RouteTree {
    ghost use Rattle.std.specs.Prelude.{List};
    ghost use Rattle.route_index.specs.declared.sub.Sub.{Sub};
    ghost use Rattle.route_index.specs.Ids.{subs_of};
    ghost use Rattle.route_index.specs.Tree.{Shows};

    ghost Value = { List Sub };

    ghost view = { λ routes. subs_of routes.patterns };

    ghost invariant = { λ routes. Shows routes.patterns routes.tree };
}

impl RouteTree {
    /// No subscriptions. It takes no memory.
    pub fn new(alloc: Global) -> RouteTree
        ensures empty { result ≡ [] }
    {
        RouteTree {
            alloc,
            patterns: BTreeMap::new(alloc),
            tree: Tree::new(alloc),
        }
    }

    /// Adds a subscription, whose number is greater than those that are there: so no number is there twice, and the order of the numbers is
    /// that of the adding. An `Err` adds none.
    pub fn add(&mut self, sub: Sub) -> Result<(), NoMemory>
        requires above { IsAbove sub.id self.old }
        ensures ok { OnOk result (self.new ≡ self.old ++ sub ∷ []) }
        ensures err { OnErr result (self.new ≡ self.old) }
    {
        let Sub { id, pattern } = sub;
        let text = Pattern::of(self.alloc, pattern.as_slice())?;
        self.tree.add_id(self.alloc, pattern.as_slice(), id)?;
        match self.patterns.insert(id, text) {
            Ok(_) => Ok(()),
            Err(refused) => {
                let (id, text) = refused.value;
                self.tree.remove_id(text.as_slice(), id);
                Err(NoMemory)
            }
        }
    }

    /// Removes the subscription of this number, and tells whether there was one. It takes no memory.
    pub fn remove(&mut self, id: u64) -> bool
        ensures there { result ≡ is_there id self.old }
        ensures left { self.new ≡ without id self.old }
    {
        match self.patterns.remove(&id) {
            Some(text) => {
                self.tree.remove_id(text.as_slice(), id);
                true
            }
            None => false,
        }
    }

    /// The numbers of the subscriptions whose patterns match the subject, in the order of their adding. The subscriptions that do not match
    /// cost nothing but a few steps in ordered maps.
    pub fn matching(&self, subject: &[u8]) -> Result<Vec<u64>, NoMemory>
        ensures ids { IfOk result (λ found. found.items ≡ matching_ids subject.now self.now) }
    {
        let mut found = self.unordered(subject)?;
        found.sort_unstable();
        found.dedup();
        Ok(found)
    }

    /// These numbers, out of order, and some more than once.
    fn unordered(&self, subject: &[u8]) -> Result<Vec<u64>, NoMemory>
        ensures ids { IfOk result (λ found. (id : ℕ) → has found.items id ≡ has (matching_ids subject.now self.now) id) }
        ensures rise { OnOk result (IsStrictlySortedBy nat_cmp (matching_ids subject.now self.now)) }
    {
        let mut found = Vec::new(self.alloc);
        self.tree.search(Some(ROOT), Some(subject), &mut found)?;
        Ok(found)
    }

    /// Whether one of the subscriptions whose patterns match the subject passes the test, which is asked of no others. It takes no memory.
    pub fn any_matching<T: Test>(&self, subject: &[u8], test: &T) -> bool
        ensures value { result ≡ list_any (T.passes test.now) (matching_ids subject.now self.now) }
    {
        self.tree.any(Some(ROOT), Some(subject), test)
    }
}
