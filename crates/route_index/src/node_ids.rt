//! The numbers of the subscriptions whose patterns end at each node.

ghost use Rattle.std.specs.Prelude.{◌≡◌, ◌++◌, ℕ, false, None, OnOk, OnErr};
ghost use Rattle.std.specs.Bool.{OnTrue};
ghost use Rattle.std.specs.List.{list_any};
ghost use Rattle.std.specs.Ordering.{nat_cmp};
ghost use Rattle.std.specs.BTreeMap.{get};
ghost use Rattle.route_index.specs.NodeIds.{ids_at, is_at_node, AddsAt, DropsAt, KeepsNodes};

use crate::ids::{push_set, put_in_set};
use crate::test::Test;
use js_base::NoMemory;
use std::alloc::Global;
use std::collections::{BTreeMap, BTreeSet};

/// The numbers at each node that has some.
pub(crate) type NodeIds = BTreeMap<u64, BTreeSet<u64>>;

/// Puts a number at a node. An `Err` leaves the numbers as they were.
pub(crate) fn put_at(ids: &mut NodeIds, alloc: Global, node: u64, id: u64) -> Result<(), NoMemory>
    ensures ok { OnOk result (AddsAt ids.old ids.new node id) }
    ensures err { OnErr result (KeepsNodes ids.old ids.new) }
{
    match ids.get_mut(&node) {
        Some(set) => put_in_set(set, id),
        None => put_first_at(ids, alloc, node, id),
    }
}

/// Puts the first number at a node.
fn put_first_at(ids: &mut NodeIds, alloc: Global, node: u64, id: u64) -> Result<(), NoMemory>
    requires { get nat_cmp ids.old node ≡ None }
    ensures ok { OnOk result (AddsAt ids.old ids.new node id) }
    ensures err { OnErr result (KeepsNodes ids.old ids.new) }
{
    let mut set = BTreeSet::new(alloc);
    put_in_set(&mut set, id)?;
    ids.insert(node, set)?;
    Ok(())
}

/// Takes a number from a node. It takes no memory.
pub(crate) fn remove_at(ids: &mut NodeIds, node: u64, id: u64)
    ensures dropped { DropsAt ids.old ids.new node id }
{
    drop_at(ids, node, id);
    if is_empty_at(ids, node) {
        ids.remove(&node);
    }
}

/// Takes a number from a node.
fn drop_at(ids: &mut NodeIds, node: u64, id: u64)
    ensures dropped { DropsAt ids.old ids.new node id }
{
    if let Some(set) = ids.get_mut(&node) {
        set.remove(&id);
    }
}

/// Whether the node is there without a number.
fn is_empty_at(ids: &NodeIds, node: u64) -> bool
    ensures empty { OnTrue result ((id : ℕ) → is_at_node ids.now node id ≡ false) }
{
    match ids.get(&node) {
        Some(set) => set.is_empty(),
        None => false,
    }
}

/// Whether no number is at the node. It may say so of none.
pub(crate) fn has_none_at(ids: &NodeIds, node: u64) -> bool
    ensures empty { OnTrue result ((id : ℕ) → is_at_node ids.now node id ≡ false) }
{
    ids.get(&node).is_none()
}

/// Adds the numbers at a node at the end.
pub(crate) fn push_at(ids: &NodeIds, node: u64, found: &mut Vec<u64>) -> Result<(), NoMemory>
    ensures ok { OnOk result (found.new.items ≡ found.old.items ++ ids_at ids.now node) }
{
    match ids.get(&node) {
        Some(set) => push_set(set, found),
        None => Ok(()),
    }
}

/// Whether a number of a set passes the test.
fn any_in_set<T: Test>(set: &BTreeSet<u64>, test: &T) -> bool
    ensures value { result ≡ list_any (T.passes test.now) set.now.keys }
{
    set.iter().any(|id| test.passes(*id))
}

/// Whether a number at a node passes the test.
pub(crate) fn any_at<T: Test>(ids: &NodeIds, node: u64, test: &T) -> bool
    ensures value { result ≡ list_any (T.passes test.now) (ids_at ids.now node) }
{
    match ids.get(&node) {
        Some(set) => any_in_set(set, test),
        None => false,
    }
}
