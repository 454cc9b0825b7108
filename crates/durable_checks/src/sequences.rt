//! Lists of sequences.

ghost use Rattle.std.specs.Prelude.{◌≡◌, ℕ, map, not, true, IfOk};
ghost use Rattle.std.specs.List.{list_all};
ghost use Rattle.js_base.specs.Bytes.{has};
ghost use Rattle.model_laws.specs.SoundTests.{are_between};
ghost use Rattle.durable_checks.specs.Parts.{Ascend};

use js_base::NoMemory;
use js_model::{Message, Pending};
use std::alloc::Global;

/// The sequences of messages.
pub(crate) fn seqs_of(alloc: Global, messages: &[Message]) -> Result<Vec<u64>, NoMemory>
    ensures value { IfOk result (λ found. found.items ≡ map (λ m. m.seq) messages.now) }
{
    Ok(messages.iter().map(|message| message.seq).collect(alloc)?)
}

/// The sequences of entries.
pub(crate) fn entry_seqs(alloc: Global, entries: &[Pending]) -> Result<Vec<u64>, NoMemory>
    ensures value { IfOk result (λ found. found.items ≡ map (λ p. p.seq) entries.now) }
{
    Ok(entries.iter().map(|entry| entry.seq).collect(alloc)?)
}

/// Whether sequences ascend from 1 on, below an end.
pub(crate) fn ascend(seqs: &[u64], end: u64) -> bool
    ensures value { result ≡ are_between (λ n. n) 1 end seqs.now }
{
    let mut least = 1;
    for seq in seqs {
        if *seq < least || end <= *seq {
            return false;
        }
        least = *seq + 1;
    }
    least <= end
}

/// Whether a sequence is among these.
pub(crate) fn is_in(seqs: &[u64], seq: u64) -> bool
    requires ascend { Ascend seqs.now }
    ensures value { result ≡ has seqs.now seq }
{
    seqs.binary_search(&seq).is_ok()
}

/// Whether one of the entries has this sequence.
pub(crate) fn is_entry(entries: &[Pending], seq: u64) -> bool
    requires ascend { Ascend (map (λ p. p.seq) entries.now) }
    ensures value { result ≡ has (map (λ p. p.seq) entries.now) seq }
{
    entries
        .binary_search_by_key(&seq, |entry| entry.seq)
        .is_ok()
}

/// Whether each of the sequences is among those that are stored.
pub(crate) fn are_in(stored: &[u64], seqs: &[u64]) -> bool
    requires ascend { Ascend stored.now }
    ensures value { result ≡ list_all (has stored.now) seqs.now }
{
    for seq in seqs {
        if !is_in(stored, *seq) {
            return false;
        }
    }
    true
}

/// Whether no sequence is in both lists.
pub(crate) fn are_apart(one: &[u64], other: &[u64]) -> bool
    requires ascend { Ascend other.now }
    ensures value { result ≡ list_all (λ n. not (has other.now n)) one.now }
{
    for seq in one {
        if is_in(other, *seq) {
            return false;
        }
    }
    true
}
