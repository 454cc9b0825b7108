//! What the filters of consumers match.

ghost use Rattle.std.specs.Prelude.{◌≡◌, All, IfOk};
ghost use Rattle.std.specs.List.{list_all};
ghost use Rattle.js_model.specs.Streams.{passes_filter};
ghost use Rattle.model_laws.specs.SoundTests.{are_matched, is_matched_consumer};
ghost use Rattle.durable_checks.specs.Parts.{Ascend, AreAscending};

use crate::sequences::{entry_seqs, is_in};
use js_base::{Blob, NoMemory};
use js_model::{Consumer, Message};
use std::alloc::Global;
use subject_match::matches;

/// Whether a filter matches a subject; the empty one matches all.
pub(crate) fn passes(filter: &Blob, subject: &Blob) -> bool
    ensures value { result ≡ passes_filter filter.now subject.now }
{
    filter.is_empty() || matches(filter.as_slice(), subject.as_slice())
}

/// Whether a filter matches each message of these sequences.
fn are_matched(messages: &[Message], filter: &Blob, seqs: &[u64]) -> bool
    requires ascend { Ascend seqs.now }
    ensures value { result ≡ are_matched messages.now filter.now seqs.now }
{
    for message in messages {
        if is_in(seqs, message.seq) && !passes(filter, &message.subject) {
            return false;
        }
    }
    true
}

/// Whether its filter matches what it picked out, what waits, and what it gave up.
fn is_matched(alloc: Global, messages: &[Message], consumer: &Consumer) -> Result<bool, NoMemory>
    requires ascending { AreAscending consumer.now }
    ensures value { IfOk result (λ matched. matched ≡ is_matched_consumer messages.now consumer.now) }
{
    let pending = entry_seqs(alloc, consumer.pending.as_slice())?;
    let filter = &consumer.config.filter_subject;
    Ok(
        are_matched(messages, filter, consumer.picks.as_slice())
            && are_matched(messages, filter, pending.as_slice())
            && are_matched(messages, filter, consumer.given_up.as_slice()),
    )
}

/// Whether the filter of each of them matches what it should.
pub(crate) fn are_all_matched(
    alloc: Global,
    messages: &[Message],
    consumers: &[Consumer],
) -> Result<bool, NoMemory>
    requires ascending { All AreAscending consumers.now }
    ensures value { IfOk result (λ matched. matched ≡ list_all (is_matched_consumer messages.now) consumers.now) }
{
    for consumer in consumers {
        if !is_matched(alloc, messages, consumer)? {
            return Ok(false);
        }
    }
    Ok(true)
}
