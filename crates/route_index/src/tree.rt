//! A tree of tokens.
//!
//! A branch leads by a token from one node to another, and the tokens of a pattern lead from the root to the node at which its subscriptions' numbers
//! stand. What matches a subject is found by going down by its tokens, by `*`, and by a last `>`, without memory.

ghost use Rattle.std.specs.Prelude.{◌≡◌, ◌++◌, Some, None, IfOk, OnOk, OnErr, IfSome};
ghost use Rattle.std.specs.Bool.{OnTrue};
ghost use Rattle.std.specs.Option.{option_copied};
ghost use Rattle.std.specs.List.{list_any};
ghost use Rattle.js_base.specs.Subjects.{tokens};
ghost use Rattle.subject_match.specs.Tokens.{tokens_left};
ghost use Rattle.route_index.specs.Tree.{step, goes, found_at, IsTree, IsReached, IsBareNode, HoldsNothing, KeepsTree, GrowsTree, AddsToTree, DropsFromTree};

use crate::names::Names;
use crate::node_ids::{NodeIds, any_at, has_none_at, push_at, put_at, remove_at};
use crate::test::Test;
use crate::token::split_token;
use js_base::NoMemory;
use std::alloc::Global;
use std::collections::BTreeMap;

/// The node at which the search begins.
pub(crate) const ROOT: u64 = 0;

/// A number that no node gets.
const END: u64 = u64::MAX;

/// Nodes and branches. A node is a number.
#[derive(Drop)]
pub(crate) struct Tree {
    /// The node to which each token leads, by the node from which it leads.
    pub(crate) branches: Names,
    pub(crate) ids: NodeIds,
    /// The number of the next node.
    pub(crate) next: u64,
}

impl Tree {
    /// The root alone. It takes no memory.
    pub(crate) fn new(alloc: Global) -> Tree
        ensures tree { IsTree result }
        ensures empty { HoldsNothing result }
    {
        Tree {
            branches: Names::new(alloc),
            ids: BTreeMap::new(alloc),
            next: ROOT + 1,
        }
    }

    /// The node to which a token leads.
    fn step(&self, node: Option<u64>, token: &[u8]) -> Option<u64>
        ensures node { result ≡ step self.now.branches node token.now }
    {
        match node {
            Some(node) => self.branches.number_of(node, token),
            None => None,
        }
    }

    /// The node to which what is left of a text leads.
    fn node_from(&self, node: Option<u64>, left: Option<&[u8]>) -> Option<u64>
        ensures node { result ≡ goes self.now.branches node (tokens_left (option_copied left.entry)) }
    {
        let Some(text) = left else {
            return node;
        };
        let (token, more) = split_token(text);
        self.node_from(self.step(node, token), more)
    }

    /// Whether nothing is at the node or behind it. It may say so of none.
    fn is_bare(&self, node: u64) -> bool
        ensures bare { OnTrue result (IsBareNode self.now.branches self.now.ids node) }
    {
        has_none_at(&self.ids, node) && self.branches.count_of(node) == 0
    }

    /// Has the token lead from the node to a new one.
    fn branch(&mut self, alloc: Global, node: u64, token: &[u8]) -> Result<u64, NoMemory>
        requires tree { IsTree self.old }
        requires reached { IsReached self.old.branches node }
        requires none { step self.old.branches (Some node) token.now ≡ None }
        ensures grows { GrowsTree self.old self.new }
        ensures node { IfOk result (λ next. step self.new.branches (Some node) token.now ≡ Some next) }
    {
        let next = self.next;
        if next == END {
            return Err(NoMemory);
        }
        self.branches.add(alloc, node, token, next)?;
        self.next = next + 1;
        Ok(next)
    }

    /// The node to which the token leads, a new one if there is none.
    fn step_or_branch(&mut self, alloc: Global, node: u64, token: &[u8]) -> Result<u64, NoMemory>
        requires tree { IsTree self.old }
        requires reached { IsReached self.old.branches node }
        ensures grows { GrowsTree self.old self.new }
        ensures node { IfOk result (λ next. step self.new.branches (Some node) token.now ≡ Some next) }
    {
        match self.step(Some(node), token) {
            Some(next) => Ok(next),
            None => self.branch(alloc, node, token),
        }
    }

    /// The node to which the tokens of a text lead, with the branches that are missing.
    fn way_to(&mut self, alloc: Global, text: &[u8]) -> Result<u64, NoMemory>
        requires tree { IsTree self.old }
        ensures grows { GrowsTree self.old self.new }
        ensures way { IfOk result (λ node. goes self.new.branches (Some 0) (tokens text.now) ≡ Some node) }
    {
        let mut node = ROOT;
        let mut left = Some(text);
        while let Some(text) = left {
            let (token, more) = split_token(text);
            node = self.step_or_branch(alloc, node, token)?;
            left = more;
        }
        Ok(node)
    }

    /// Takes away a branch to a node at which nothing is.
    fn cut(&mut self, node: u64, token: &[u8])
        requires tree { IsTree self.old }
        requires bare { IfSome (step self.old.branches (Some node) token.now) (IsBareNode self.old.branches self.old.ids) }
        ensures keeps { KeepsTree self.old self.new }
    {
        self.branches.cut(node, token);
    }

    /// Takes away the branches to nodes at which nothing is, on the way that what is left of a text leads from a node.
    fn prune(&mut self, node: u64, left: Option<&[u8]>)
        requires tree { IsTree self.old }
        ensures keeps { KeepsTree self.old self.new }
    {
        let Some(text) = left else {
            return;
        };
        let (token, more) = split_token(text);
        if let Some(next) = self.step(Some(node), token) {
            self.prune(next, more);
            self.cut_if_bare(node, token);
        }
    }

    /// Takes away a branch, if nothing is at the node to which it leads.
    fn cut_if_bare(&mut self, node: u64, token: &[u8])
        requires tree { IsTree self.old }
        ensures keeps { KeepsTree self.old self.new }
    {
        if let Some(next) = self.step(Some(node), token) {
            if self.is_bare(next) {
                self.cut(node, token);
            }
        }
    }

    /// Puts a number under the tokens of a text. An `Err` may leave branches to nodes at which nothing is.
    fn put(&mut self, alloc: Global, text: &[u8], id: u64) -> Result<(), NoMemory>
        requires tree { IsTree self.old }
        ensures ok { OnOk result (AddsToTree self.old self.new (tokens text.now) id) }
        ensures err { OnErr result (KeepsTree self.old self.new) }
    {
        let node = self.way_to(alloc, text)?;
        put_at(&mut self.ids, alloc, node, id)
    }

    /// Puts a number under the tokens of a text. An `Err` leaves the numbers as they were.
    pub(crate) fn add_id(&mut self, alloc: Global, text: &[u8], id: u64) -> Result<(), NoMemory>
        requires tree { IsTree self.old }
        ensures ok { OnOk result (AddsToTree self.old self.new (tokens text.now) id) }
        ensures err { OnErr result (KeepsTree self.old self.new) }
    {
        match self.put(alloc, text, id) {
            Ok(()) => Ok(()),
            Err(refused) => {
                self.prune(ROOT, Some(text));
                Err(refused)
            }
        }
    }

    /// Takes a number from the node to which the tokens of a text lead.
    fn drop_id(&mut self, text: &[u8], id: u64)
        requires tree { IsTree self.old }
        ensures dropped { DropsFromTree self.old self.new (tokens text.now) id }
    {
        if let Some(node) = self.node_from(Some(ROOT), Some(text)) {
            remove_at(&mut self.ids, node, id);
        }
    }

    /// Takes a number from under the tokens of a text, and the branches that lead to nothing then. It takes no memory.
    pub(crate) fn remove_id(&mut self, text: &[u8], id: u64)
        requires tree { IsTree self.old }
        ensures dropped { DropsFromTree self.old self.new (tokens text.now) id }
    {
        self.drop_id(text, id);
        self.prune(ROOT, Some(text));
    }

    /// Adds the numbers that are found from a node on by what is left of the subject.
    pub(crate) fn search(
        &self,
        node: Option<u64>,
        left: Option<&[u8]>,
        found: &mut Vec<u64>,
    ) -> Result<(), NoMemory>
        ensures found { OnOk result (found.new.items ≡ found.old.items ++ found_at self.now node (tokens_left (option_copied left.entry))) }
    {
        let Some(node) = node else {
            return Ok(());
        };
        let Some(text) = left else {
            return push_at(&self.ids, node, found);
        };
        let (token, more) = split_token(text);
        self.search(self.step(Some(node), b">"), None, found)?;
        self.search(self.step(Some(node), b"*"), more, found)?;
        self.search(self.step(Some(node), token), more, found)
    }

    /// Whether one of these numbers passes the test.
    pub(crate) fn any<T: Test>(&self, node: Option<u64>, left: Option<&[u8]>, test: &T) -> bool
        ensures value { result ≡ list_any (T.passes test.now) (found_at self.now node (tokens_left (option_copied left.entry))) }
    {
        let Some(node) = node else {
            return false;
        };
        let Some(text) = left else {
            return any_at(&self.ids, node, test);
        };
        let (token, more) = split_token(text);
        if self.any(self.step(Some(node), b">"), None, test) {
            return true;
        }
        if self.any(self.step(Some(node), b"*"), more, test) {
            return true;
        }
        self.any(self.step(Some(node), token), more, test)
    }
}
