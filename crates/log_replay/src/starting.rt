//! Where a consumer begins.

ghost use Rattle.std.specs.Prelude.{◌≡◌, ◌+◌, nat_le};
ghost use Rattle.js_base.specs.Bytes.{has};
ghost use Rattle.js_model.specs.Streams.{seqs};
ghost use Rattle.model_laws.specs.SoundTests.{are_between, are_stored};

use message_store::MessageStore;

/// Whether a cursor is at most the sequence after the last one.
pub(crate) fn is_reached(cursor: u64, last: u64) -> bool
    ensures value { result ≡ nat_le cursor (last + 1) }
{
    cursor.saturating_sub(1) <= last
}

/// Whether sequences ascend from 1 on, below an end.
pub(crate) fn ascend(seqs: &[u64], end: u64) -> bool
    ensures value { result ≡ are_between (λ n. n) 1 end seqs.now }
{
    let mut least = 1;
    for seq in seqs {
        if *seq < least || end <= *seq {
            return false;
        }
        least = *seq + 1;
    }
    least <= end
}

/// Whether a message of the sequence is stored.
pub(crate) fn is_stored(messages: &MessageStore, seq: u64) -> bool
    ensures value { result ≡ has (seqs messages.now) seq }
{
    messages.get(seq).is_some()
}

/// Whether a message of each of the sequences is stored.
pub(crate) fn are_stored(messages: &MessageStore, seqs: &[u64]) -> bool
    ensures value { result ≡ are_stored messages.now seqs.now }
{
    for seq in seqs {
        if !is_stored(messages, *seq) {
            return false;
        }
    }
    true
}
