//! Whether a publish is taken, and why not.

ghost use Rattle.std.specs.Prelude.{◌≡◌, ◌+◌, ◌^◌, ◌<◌, ◌&&◌, true, None, IfOk, length, nat_lt, option_map, sum_by};
ghost use Rattle.std.specs.Option.{option_copied};
ghost use Rattle.js_model.specs.Streams.{over_limit, size};
ghost use Rattle.js_model.specs.Trim.{max_messages};
ghost use Rattle.js_model.specs.Refusals.{first_refusal};
ghost use Rattle.js_model.specs.Verdict.{discards_new, held_after, early_checks, late_checks, verdict, known, last_id, last_seq_on, differs, text_differs};
ghost use Rattle.retention.specs.Over.{next_over};
ghost use Rattle.stored_stream.specs.PushedOut.{pushed_out};
ghost use Rattle.stored_stream.specs.Stored.{IsSound};

use crate::stored::StoredStream;
use js_base::{ApiError, Blob, NoMemory};
use js_model::refusals::{
    bad_header_number, id_too_long, max_bytes_exceeded, max_messages_exceeded, message_too_large,
    numbers_used_up, window_full, wrong_last, wrong_last_id, wrong_stream,
};
use js_model::{Discard, Message, Publish, Verdict};
use retention::max_messages;
use std::alloc::Global;
use stream_view::View;

/// Sequences are below it.
const NUMBERS_END: u64 = 1 << 62;

/// How many ids the duplicate window has at most.
const MOST_IDS: u64 = 1 << 20;

/// How many bytes an id has at most.
const LONGEST_ID: usize = 256;

/// What a stream answers a publish, by JetStream's publish headers, duplicate window and discard policy, if its store has a block for the
/// message.
#[tactic(auto, unfolding(js_model::specs::Verdict::verdict))]
pub fn verdict(alloc: Global, stream: &StoredStream, publish: &Publish) -> Result<Verdict, NoMemory>
    requires sound { IsSound stream.now }
    requires within { next_over stream.now ≡ None }
    ensures value { IfOk result (λ said. said ≡ verdict stream.now publish.now true) }
{
    if let Some(refusal) = early_refusal(alloc, stream, publish)? {
        return Ok(Verdict::Refused(refusal));
    }
    if let Some(seq) = known_seq(stream, &publish.wants.id) {
        return Ok(Verdict::Duplicate(seq));
    }
    match late_refusal(alloc, stream, publish)? {
        Some(refusal) => Ok(Verdict::Refused(refusal)),
        None => Ok(Verdict::Take),
    }
}

/// The refusal of the checks that come before the look for a duplicate.
fn early_refusal(
    alloc: Global,
    stream: &StoredStream,
    publish: &Publish,
) -> Result<Option<ApiError>, NoMemory>
    ensures value { IfOk result (λ refusal. refusal ≡ first_refusal (early_checks stream.now publish.now)) }
{
    let wants = &publish.wants;
    let config = stream.config();
    let length = publish.headers.len() + publish.payload.len();
    if over_limit(length as u128, config.max_msg_size) {
        return Ok(Some(message_too_large(alloc)?));
    }
    if let Some(header) = &wants.bad {
        return Ok(Some(bad_header_number(alloc, header.as_slice())?));
    }
    if wants.id.len() > LONGEST_ID {
        return Ok(Some(id_too_long(alloc)?));
    }
    if text_differs(&wants.stream, config.name.as_slice()) {
        return Ok(Some(wrong_stream(alloc)?));
    }
    Ok(None)
}

/// The sequence under which the message of a publish is stored already, if its id is in the window. An empty id is none.
fn known_seq(stream: &StoredStream, id: &Blob) -> Option<u64>
    ensures value { result ≡ option_map (λ i. i.seq) (known stream.now id.now) }
{
    if id.is_empty() {
        return None;
    }
    stream.ids().seq_of(id.as_slice())
}

/// The refusal of the checks that come after it.
fn late_refusal(
    alloc: Global,
    stream: &StoredStream,
    publish: &Publish,
) -> Result<Option<ApiError>, NoMemory>
    requires sound { IsSound stream.now }
    requires within { next_over stream.now ≡ None }
    ensures value { IfOk result (λ refusal. refusal ≡ first_refusal (late_checks stream.now publish.now true)) }
{
    let wants = &publish.wants;
    let last = stream.last();
    if differs(wants.last, last) {
        return Ok(Some(wrong_last(alloc, last)?));
    }
    let subject_last = last_seq_on(stream, publish.subject.as_slice());
    if differs(wants.subject_last, subject_last) {
        return Ok(Some(wrong_last(alloc, subject_last)?));
    }
    if text_differs(&wants.last_id, last_id(stream)) {
        return Ok(Some(wrong_last_id(alloc)?));
    }
    if has_too_many(stream, publish) {
        return Ok(Some(max_messages_exceeded(alloc)?));
    }
    if has_too_large(stream, publish) {
        return Ok(Some(max_bytes_exceeded(alloc)?));
    }
    if !wants.id.is_empty() && MOST_IDS <= stream.ids().len() {
        return Ok(Some(window_full(alloc)?));
    }
    if last + 1 == NUMBERS_END {
        return Ok(Some(numbers_used_up(alloc)?));
    }
    Ok(None)
}

/// The sequence of the last message of the subject, or 0.
fn last_seq_on(stream: &StoredStream, subject: &[u8]) -> u64
    ensures value { result ≡ last_seq_on stream.now subject.now }
{
    match stream.last_on(subject) {
        Some(message) => message.seq,
        None => 0,
    }
}

/// The last id that is still in the window, or the empty text.
fn last_id(stream: &StoredStream) -> &[u8]
    ensures value { result.now ≡ last_id stream.now }
{
    match stream.ids().last() {
        Some(id) => id.as_slice(),
        None => &[],
    }
}

/// Whether the stream discards new messages, and has no place for one more.
fn has_too_many(stream: &StoredStream, publish: &Publish) -> bool
    requires sound { IsSound stream.now }
    requires within { next_over stream.now ≡ None }
    ensures value { result ≡ (discards_new stream.now && nat_lt (max_messages stream.now) (length (held_after stream.now publish.now))) }
{
    discards_new(stream) && max_messages(stream) < count_after(stream, publish)
}

/// Whether the stream discards new messages, and has no bytes left for this one.
fn has_too_large(stream: &StoredStream, publish: &Publish) -> bool
    requires sound { IsSound stream.now }
    requires within { next_over stream.now ≡ None }
    ensures value { result ≡ (discards_new stream.now && over_limit (sum_by size (held_after stream.now publish.now)) stream.now.config.max_bytes) }
{
    discards_new(stream) && over_limit(bytes_after(stream, publish), stream.config().max_bytes)
}

/// How many messages the stream would hold after the publish, by the limit of each subject alone.
fn count_after(stream: &StoredStream, publish: &Publish) -> u64
    requires sound { IsSound stream.now }
    requires within { next_over stream.now ≡ None }
    ensures value { result ≡ length (held_after stream.now publish.now) }
{
    let count = stream.count();
    match pushed_out(stream, publish.subject.as_slice()) {
        Some(_) => count,
        None => count + 1,
    }
}

/// Their sizes, together.
fn bytes_after(stream: &StoredStream, publish: &Publish) -> u128
    requires sound { IsSound stream.now }
    requires within { next_over stream.now ≡ None }
    ensures value { result ≡ sum_by size (held_after stream.now publish.now) }
{
    let bytes = u128::from(stream.bytes()) + publish_size(publish);
    match pushed_out(stream, publish.subject.as_slice()) {
        Some(first) => bytes - first.size(),
        None => bytes,
    }
}

/// The message that the limit of the subject would drop for one more: its first, if it has as many as it may have.
fn pushed_out<'a>(stream: &'a StoredStream, subject: &[u8]) -> Option<&'a Message>
    requires sound { IsSound stream.now }
    ensures value { option_copied result ≡ pushed_out stream.now subject.now }
{
    let most = stream.config().max_msgs_per_subject?;
    let counts = stream.of(subject)?;
    if counts.count < most {
        return None;
    }
    stream.get(counts.first)
}

/// The size of the message that a publish stores.
fn publish_size(publish: &Publish) -> u128
    ensures value { result ≡ length publish.now.subject + length publish.now.headers + length publish.now.payload + 40 }
    ensures bound { result < 2 ^ 66 }
{
    publish.subject.len() as u128
        + publish.headers.len() as u128
        + publish.payload.len() as u128
        + 40
}

/// Whether new messages are refused when the limits are reached.
fn discards_new(stream: &StoredStream) -> bool
    ensures value { result ≡ discards_new stream.now }
{
    match stream.config().discard {
        Discard::Old => false,
        Discard::New => true,
    }
}

/// Whether a number is over the limit, if there is one.
fn over_limit(number: u128, limit: Option<u64>) -> bool
    ensures value { result ≡ over_limit number limit }
{
    match limit {
        Some(limit) => u128::from(limit) < number,
        None => false,
    }
}

/// Whether another number is wanted.
fn differs(want: Option<u64>, number: u64) -> bool
    ensures value { result ≡ differs want number }
{
    match want {
        Some(want) => want != number,
        None => false,
    }
}

/// Whether another text is wanted.
fn text_differs(want: &Option<Blob>, text: &[u8]) -> bool
    ensures value { result ≡ text_differs want.now text.now }
{
    match want {
        Some(want) => want.as_slice() != text,
        None => false,
    }
}
