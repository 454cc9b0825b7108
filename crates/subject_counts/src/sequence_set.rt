//! The sequences of one subject.

ghost use Rattle.std.specs.Prelude.{◌≡◌, [], ◌∷◌, ◌++◌, filter, find, nat_le, not, ◌==◌, length, OnOk, OnErr};
ghost use Rattle.std.specs.Ordering.{nat_cmp};
ghost use Rattle.std.specs.BTreeSet.{IsOrdered, IsUnchanged};
ghost use Rattle.stream_view.specs.Counting.{counts_of};
ghost use Rattle.subject_counts.specs.Sequences.{IsAbove};

use js_base::NoMemory;
use std::collections::BTreeSet;
use stream_view::Counts;

/// Adds a sequence above the others. An `Err` adds none.
pub(crate) fn push_seq(set: &mut BTreeSet<u64>, seq: u64) -> Result<(), NoMemory>
    requires above { IsAbove seq set.old.keys }
    ensures ok { OnOk result (set.new.keys ≡ set.old.keys ++ seq ∷ []) }
    ensures err { OnErr result (IsUnchanged set.old set.new) }
    ensures ordered { IsOrdered nat_cmp set.new }
{
    set.insert(seq)?;
    Ok(())
}

/// Drops a sequence, if it is there, and tells whether none is left.
pub(crate) fn drop_seq(set: &mut BTreeSet<u64>, seq: u64) -> bool
    requires ordered { IsOrdered nat_cmp set.old }
    ensures left { set.new.keys ≡ filter (λ n. not (n == seq)) set.old.keys }
    ensures bare { result ≡ (length set.new.keys == 0) }
    ensures ordered { IsOrdered nat_cmp set.new }
{
    set.remove(&seq);
    set.is_empty()
}

/// How many sequences there are, and the first and the last. `None` if there is none.
pub(crate) fn counts_in(set: &BTreeSet<u64>) -> Option<Counts>
    ensures value { result ≡ counts_of set.now.keys }
{
    let first = *set.first()?;
    let last = *set.last()?;
    Some(Counts {
        count: set.len() as u64,
        first,
        last,
    })
}

/// The least sequence that is at least this one.
pub(crate) fn first_from(set: &BTreeSet<u64>, seq: u64) -> Option<u64>
    ensures value { result ≡ find (λ n. nat_le seq n) set.now.keys }
{
    set.range(seq..).next().copied()
}
