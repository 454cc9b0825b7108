//! The numbers of the subscriptions under each pattern.

ghost use Rattle.std.specs.Prelude.{◌≡◌, ◌++◌, ℕ, false, None, OnOk, OnErr};
ghost use Rattle.std.specs.Bool.{OnTrue, OnFalse};
ghost use Rattle.std.specs.Ordering.{nat_cmp};
ghost use Rattle.std.specs.Cmp.Lexicographic.{slice_cmp};
ghost use Rattle.std.specs.BTreeMap.{get};
ghost use Rattle.std.specs.BTreeSet.{IsUnchanged};
ghost use Rattle.route_index.specs.Ids.{is_under, AddsToSet, AddsId, DropsId, KeepsIds};
ghost use Rattle.route_index.specs.Searching.{AddsUnder, IsBare};

use crate::pattern::Pattern;
use js_base::NoMemory;
use std::alloc::Global;
use std::collections::{BTreeMap, BTreeSet};

/// The numbers of the subscriptions under each pattern that has some.
pub(crate) type Ids = BTreeMap<Pattern, BTreeSet<u64>>;

/// Puts a number under a pattern. An `Err` leaves the numbers as they were.
pub(crate) fn put_id(
    ids: &mut Ids,
    alloc: Global,
    pattern: Pattern,
    id: u64,
) -> Result<(), NoMemory>
    ensures ok { OnOk result (AddsId ids.old ids.new pattern id) }
    ensures err { OnErr result (KeepsIds ids.old ids.new) }
{
    match ids.get_mut(&pattern) {
        Some(set) => put_in_set(set, id),
        None => put_first(ids, alloc, pattern, id),
    }
}

/// Puts a number into a set.
pub(crate) fn put_in_set(set: &mut BTreeSet<u64>, id: u64) -> Result<(), NoMemory>
    ensures ok { OnOk result (AddsToSet set.old set.new id) }
    ensures err { OnErr result (IsUnchanged set.old set.new) }
{
    set.insert(id)?;
    Ok(())
}

/// Puts the first number under a pattern.
fn put_first(ids: &mut Ids, alloc: Global, pattern: Pattern, id: u64) -> Result<(), NoMemory>
    requires { get (slice_cmp nat_cmp) ids.old pattern ≡ None }
    ensures ok { OnOk result (AddsId ids.old ids.new pattern id) }
    ensures err { OnErr result (KeepsIds ids.old ids.new) }
{
    let mut set = BTreeSet::new(alloc);
    put_in_set(&mut set, id)?;
    ids.insert(pattern, set)?;
    Ok(())
}

/// Takes a number from under a pattern, which goes with its last one. It takes no memory.
pub(crate) fn remove_id(ids: &mut Ids, pattern: &Pattern, id: u64)
    ensures dropped { DropsId ids.old ids.new pattern.now id }
{
    drop_id(ids, pattern, id);
    if is_empty_at(ids, pattern) {
        ids.remove(pattern);
    }
}

/// Takes a number from under a pattern.
fn drop_id(ids: &mut Ids, pattern: &Pattern, id: u64)
    ensures dropped { DropsId ids.old ids.new pattern.now id }
{
    if let Some(set) = ids.get_mut(pattern) {
        set.remove(&id);
    }
}

/// Whether the pattern is there without a number.
fn is_empty_at(ids: &Ids, pattern: &Pattern) -> bool
    ensures empty { OnTrue result ((id : ℕ) → is_under ids.now pattern.now id ≡ false) }
{
    match ids.get(pattern) {
        Some(set) => set.is_empty(),
        None => false,
    }
}

/// Adds the numbers of a set at the end.
pub(crate) fn push_set(set: &BTreeSet<u64>, found: &mut Vec<u64>) -> Result<(), NoMemory>
    ensures ok { OnOk result (found.new.items ≡ found.old.items ++ set.now.keys) }
{
    for id in set {
        found.push(*id)?;
    }
    Ok(())
}

/// Adds the numbers under a pattern at the end.
pub(crate) fn push_ids(ids: &Ids, pattern: &Pattern, found: &mut Vec<u64>) -> Result<(), NoMemory>
    ensures ok { OnOk result (AddsUnder ids.now pattern.now found.old.items found.new.items) }
{
    match ids.get(pattern) {
        Some(set) => push_set(set, found),
        None => Ok(()),
    }
}

/// Whether some pattern begins with this text.
pub(crate) fn begins_some(ids: &Ids, front: &Pattern) -> bool
    ensures bare { OnFalse result (IsBare ids.now front.now) }
{
    match ids.range(front..).next() {
        Some((pattern, _)) => pattern.as_slice().starts_with(front.as_slice()),
        None => false,
    }
}
