//! Whether the limits of a stream keep each of its messages.

ghost use Rattle.std.specs.Prelude.{◌≡◌, nat_lt, nat_le, true, length, sum_by, IfOk};
ghost use Rattle.js_model.specs.Streams.{size};
ghost use Rattle.durable_checks.specs.Limits.{are_newest, are_newest_at, are_within, is_within_limit, count_in, CountsOne};

use js_base::NoMemory;
use js_model::{Message, StreamConfig};
use std::alloc::Global;
use std::collections::BTreeMap;

/// How many messages each subject has.
type Counts<'a> = BTreeMap<&'a [u8], u64>;

/// Counts one more message of a subject, and tells whether there were fewer than the limit before. If there were not, nothing changes.
fn count<'a>(counts: &mut Counts<'a>, subject: &'a [u8], limit: u64) -> Result<bool, NoMemory>
    ensures few { IfOk result (λ few. few ≡ nat_lt (count_in counts.old subject.now) limit) }
    ensures counted { IfOk result (λ few. few ≡ true → CountsOne subject.now counts.old counts.new) }
{
    let before = counts.get(subject).copied().unwrap_or(0);
    if limit <= before {
        return Ok(false);
    }
    counts.insert(subject, before + 1)?;
    Ok(true)
}

/// Whether each message is among the last ones of its subject, as many as the limit.
fn are_newest(alloc: Global, messages: &[Message], limit: u64) -> Result<bool, NoMemory>
    ensures value { IfOk result (λ newest. newest ≡ are_newest limit messages.now) }
{
    let mut counts = BTreeMap::new(alloc);
    let mut at = messages.len();
    while at > 0 {
        at -= 1;
        let message = &messages[at];
        if !count(&mut counts, message.subject.as_slice(), limit)? {
            return Ok(false);
        }
    }
    Ok(true)
}

/// Whether each message is among the last ones of its subject, as many as the limit, if there is one.
fn are_newest_at(alloc: Global, messages: &[Message], limit: Option<u64>) -> Result<bool, NoMemory>
    ensures value { IfOk result (λ newest. newest ≡ are_newest_at limit messages.now) }
{
    match limit {
        Some(limit) => are_newest(alloc, messages, limit),
        None => Ok(true),
    }
}

/// Whether there are at most as many messages as the limit, if there is one.
fn are_few(messages: &[Message], limit: Option<u64>) -> bool
    ensures value { result ≡ is_within_limit (length messages.now) limit }
{
    match limit {
        Some(limit) => messages.len() as u64 <= limit,
        None => true,
    }
}

/// Whether the sizes of the messages together are at most the limit.
fn are_small(messages: &[Message], limit: u64) -> bool
    ensures value { result ≡ nat_le (sum_by size messages.now) limit }
{
    let mut left = limit as u128;
    for message in messages {
        match left.checked_sub(message.size()) {
            Some(less) => left = less,
            None => return false,
        }
    }
    true
}

/// Whether the sizes of the messages together are at most the limit, if there is one.
fn are_small_at(messages: &[Message], limit: Option<u64>) -> bool
    ensures value { result ≡ is_within_limit (sum_by size messages.now) limit }
{
    match limit {
        Some(limit) => are_small(messages, limit),
        None => true,
    }
}

/// Whether the limits of a stream keep each of its messages, of which there are not more than any stream may have.
pub(crate) fn are_within(
    alloc: Global,
    config: &StreamConfig,
    messages: &[Message],
) -> Result<bool, NoMemory>
    ensures value { IfOk result (λ within. within ≡ are_within config.now messages.now) }
{
    Ok(
        are_newest_at(alloc, messages, config.max_msgs_per_subject)?
            && are_few(messages, config.max_msgs)
            && are_small_at(messages, config.max_bytes),
    )
}
