//! Lists as their vectors are changed.

ghost use Rattle.std.specs.Prelude.{◌≡◌, [], filter, not};
ghost use Rattle.effects.specs.Ranges.{is_within};

use js_base::List;
use js_model::Pending;
use std::alloc::Global;
use std::mem;

/// The vector of a list, which has no items then.
pub(crate) fn take<T>(alloc: Global, list: &mut List<T>) -> Vec<T>
    ensures items { result.items ≡ list.old }
    ensures left { list.new ≡ [] }
{
    mem::replace(list, List::new(alloc)).into_vec()
}

/// Whether a sequence is in a range, both ends too.
pub(crate) fn is_within(low: u64, high: u64, seq: u64) -> bool
    ensures value { result ≡ is_within low high seq }
{
    low <= seq && seq <= high
}

/// Drops the sequences of a range.
pub(crate) fn drop_seqs(alloc: Global, seqs: &mut List<u64>, low: u64, high: u64)
    ensures left { seqs.new ≡ filter (λ n. not (is_within low high n)) seqs.old }
{
    let mut kept = take(alloc, seqs);
    kept.retain(|seq| !is_within(low, high, *seq));
    *seqs = List::from_vec(kept);
}

/// Drops the entries of a range of sequences.
pub(crate) fn drop_entries(alloc: Global, entries: &mut List<Pending>, low: u64, high: u64)
    ensures left { entries.new ≡ filter (λ p. not (is_within low high p.seq)) entries.old }
{
    let mut kept = take(alloc, entries);
    kept.retain(|entry| !is_within(low, high, entry.seq));
    *entries = List::from_vec(kept);
}
