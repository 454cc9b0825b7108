//! What a volume holds of consumers.

ghost use Rattle.std.specs.Prelude.{◌≡◌, ◌+◌, nat_le, IfOk};
ghost use Rattle.std.specs.List.{list_all};
ghost use Rattle.js_model.specs.Streams.{pending_seqs};
ghost use Rattle.model_laws.specs.SoundTests.{are_between, are_ascending, are_allowed, is_counted};
ghost use Rattle.durable_checks.specs.Parts.{are_placed_in, is_sound_in, Ascend, AreAscending};

use crate::sequences::{are_apart, are_in, ascend, entry_seqs};
use js_base::NoMemory;
use js_model::{Consumer, Pending};
use std::alloc::Global;

/// Whether an entry was delivered at least once, and no more often than its consumer delivered and than it may be.
fn is_counted(dseq: u64, limit: Option<u64>, entry: &Pending) -> bool
    ensures value { result ≡ is_counted dseq limit entry.now }
{
    1 <= entry.count && entry.count <= dseq && limit.is_none_or(|limit| entry.count <= limit)
}

/// Whether each entry was delivered as often as it may have been.
fn are_counted(dseq: u64, limit: Option<u64>, entries: &[Pending]) -> bool
    ensures value { result ≡ list_all (is_counted dseq limit) entries.now }
{
    entries.iter().all(|entry| is_counted(dseq, limit, entry))
}

/// Whether its entries and pulls are such as its configuration allows.
fn are_allowed(consumer: &Consumer) -> bool
    ensures value { result ≡ are_allowed consumer.now }
{
    let limit = consumer.config.max_deliver;
    are_counted(consumer.dseq, limit, consumer.pending.as_slice())
        && (!consumer.is_unacknowledged() || consumer.pending.is_empty())
        && (!consumer.is_unacknowledged() || consumer.given_up.is_empty())
        && (!consumer.is_push() || consumer.waiting.is_empty())
}

/// Whether a cursor is at most the sequence after the last one.
fn is_reached(cursor: u64, last: u64) -> bool
    ensures value { result ≡ nat_le cursor (last + 1) }
{
    cursor.saturating_sub(1) <= last
}

/// Whether its pending entries, whose sequences are these, ascend below its cursor.
fn are_pending_ascending(consumer: &Consumer, pending: &[u64]) -> bool
    requires pending { pending.now ≡ pending_seqs consumer.now }
    ensures value { result ≡ are_between (λ p. p.seq) 1 consumer.now.cursor consumer.now.pending }
{
    ascend(pending, consumer.cursor)
}

/// Whether its sequences, those of its pending entries too, ascend below its cursor, and that is at most the one after the last.
fn are_ascending(consumer: &Consumer, pending: &[u64], last: u64) -> bool
    requires pending { pending.now ≡ pending_seqs consumer.now }
    ensures value { result ≡ are_ascending last consumer.now }
{
    is_reached(consumer.cursor, last)
        && ascend(consumer.picks.as_slice(), consumer.cursor)
        && are_pending_ascending(consumer, pending)
        && ascend(consumer.given_up.as_slice(), consumer.cursor)
}

/// Whether its sequences, those of its pending entries too, are stored, and stand once.
fn are_placed(stored: &[u64], consumer: &Consumer, pending: &[u64]) -> bool
    requires pending { pending.now ≡ pending_seqs consumer.now }
    requires stored { Ascend stored.now }
    requires ascending { AreAscending consumer.now }
    ensures value { result ≡ are_placed_in stored.now consumer.now }
{
    let picks = consumer.picks.as_slice();
    let given_up = consumer.given_up.as_slice();
    are_in(stored, picks)
        && are_in(stored, pending)
        && are_in(stored, given_up)
        && are_apart(picks, pending)
        && are_apart(picks, given_up)
        && are_apart(pending, given_up)
}

/// Whether what it holds is sound beside these stored sequences, of which the last that was given is told.
fn is_sound(alloc: Global, stored: &[u64], last: u64, consumer: &Consumer) -> Result<bool, NoMemory>
    requires stored { Ascend stored.now }
    ensures value { IfOk result (λ sound. sound ≡ is_sound_in stored.now last consumer.now) }
{
    let pending = entry_seqs(alloc, consumer.pending.as_slice())?;
    Ok(
        are_ascending(consumer, pending.as_slice(), last)
            && are_placed(stored, consumer, pending.as_slice())
            && are_allowed(consumer),
    )
}

/// Whether what each of them holds is sound.
pub(crate) fn are_sound(
    alloc: Global,
    stored: &[u64],
    last: u64,
    consumers: &[Consumer],
) -> Result<bool, NoMemory>
    requires stored { Ascend stored.now }
    ensures value { IfOk result (λ sound. sound ≡ list_all (is_sound_in stored.now last) consumers.now) }
{
    for consumer in consumers {
        if !is_sound(alloc, stored, last, consumer)? {
            return Ok(false);
        }
    }
    Ok(true)
}
