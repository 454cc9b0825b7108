//! The publish headers are read.

ghost use Rattle.std.specs.Prelude.{◌≡◌, ◌||◌, [], IfOk, IfSome, IsTrue, IsUtf8, option_map};
ghost use Rattle.js_base.specs.Bytes.{is_empty};
ghost use Rattle.js_base.specs.Headers.{is_block};
ghost use Rattle.publish_wants.specs.Wants.{text_in, number_in, or_none, first_wrong, wants_of, is_proper_wants};

use js_base::{Blob, DecFault, NoMemory, read_decimal};
use js_model::Wants;
use nats_headers::{Headers, read_headers};
use std::alloc::Global;

/// The id of the message.
const MSG_ID: &[u8] = b"Nats-Msg-Id";

/// The name of the stream.
const STREAM: &[u8] = b"Nats-Expected-Stream";

/// The stream's last sequence.
const LAST_SEQUENCE: &[u8] = b"Nats-Expected-Last-Sequence";

/// The last sequence of the message's subject.
const LAST_SUBJECT_SEQUENCE: &[u8] = b"Nats-Expected-Last-Subject-Sequence";

/// The id of the stream's last message.
const LAST_MSG_ID: &[u8] = b"Nats-Expected-Last-Msg-Id";

/// The value of the first field with this name, if it is not empty.
fn text_in<'a>(headers: &'a Headers, name: &[u8]) -> Option<&'a [u8]>
    ensures value { option_map (λ value. value.now) result ≡ text_in name.now headers.now }
{
    match headers.get(name) {
        Some(value) if !value.is_empty() => Some(value),
        _ => None,
    }
}

/// The number that this value spells, if there is one.
fn number_in(headers: &Headers, name: &[u8]) -> Result<Option<u64>, DecFault>
    ensures value { result ≡ number_in name.now headers.now }
{
    match text_in(headers, name) {
        Some(value) => read_decimal(value).map(Some),
        None => Ok(None),
    }
}

/// A copy of this value, if there is one.
fn copy_in(alloc: Global, headers: &Headers, name: &[u8]) -> Result<Option<Blob>, NoMemory>
    ensures value { IfOk result (λ copy. copy ≡ text_in name.now headers.now) }
{
    match text_in(headers, name) {
        Some(value) => Ok(Some(Blob::of(alloc, value)?)),
        None => Ok(None),
    }
}

/// The number, if there is one.
fn or_none(number: Result<Option<u64>, DecFault>) -> Option<u64>
    ensures value { result ≡ or_none number }
{
    match number {
        Ok(number) => number,
        Err(_) => None,
    }
}

/// The first of the two headers with numbers whose value is none.
fn first_wrong(
    alloc: Global,
    last: Result<Option<u64>, DecFault>,
    subject_last: Result<Option<u64>, DecFault>,
) -> Result<Option<Blob>, NoMemory>
    ensures value { IfOk result (λ name. name ≡ first_wrong last subject_last) }
{
    match (last, subject_last) {
        (Err(_), _) => Ok(Some(Blob::of(alloc, LAST_SEQUENCE)?)),
        (Ok(_), Err(_)) => Ok(Some(Blob::of(alloc, LAST_SUBJECT_SEQUENCE)?)),
        (Ok(_), Ok(_)) => Ok(None),
    }
}

/// What these headers ask.
fn wants_in(alloc: Global, headers: &Headers) -> Result<Wants, NoMemory>
    ensures wants { IfOk result (λ wants. wants ≡ wants_of headers.now) }
{
    let last = number_in(headers, LAST_SEQUENCE);
    let subject_last = number_in(headers, LAST_SUBJECT_SEQUENCE);
    Ok(Wants {
        bad: first_wrong(alloc, last, subject_last)?,
        id: copy_in(alloc, headers, MSG_ID)?.unwrap_or(Blob::empty()),
        stream: copy_in(alloc, headers, STREAM)?,
        last: or_none(last),
        subject_last: or_none(subject_last),
        last_id: copy_in(alloc, headers, LAST_MSG_ID)?,
    })
}

/// What a publish without headers asks: nothing.
#[tactic(auto, unfolding(crate::specs::Wants::wants_of, nats_headers::specs::Reading::header))]
fn no_wants() -> Wants
    ensures wants { result ≡ wants_of [] }
{
    Wants {
        bad: None,
        id: Blob::empty(),
        stream: None,
        last: None,
        subject_last: None,
        last_id: None,
    }
}

/// What a publish with this header block asks of its stream, by the first field of each name; an empty value is none. The sequences are below 2^62:
/// of `Nats-Expected-Last-Sequence` and `Nats-Expected-Last-Subject-Sequence`, the first whose value is no such decimal is told as `bad`, by its name. An
/// empty block, that is, none, asks nothing.
#[tactic(auto, using(crate::proofs::Numbers::proper, crate::proofs::Told::told))]
pub fn read_wants(alloc: Global, block: &[u8]) -> Result<Wants, NoMemory>
    requires block { IsTrue (is_empty block.now || is_block block.now) }
    ensures wants { IfOk result (λ wants. wants ≡ wants_of block.now) }
    ensures proper { IfOk result (λ wants. IsTrue (is_proper_wants wants)) }
    ensures told { IfOk result (λ wants. IfSome wants.bad IsUtf8) }
{
    if block.is_empty() {
        return Ok(no_wants());
    }
    match read_headers(alloc, block) {
        Ok(headers) => wants_in(alloc, &headers),
        Err(_) => Err(NoMemory),
    }
}
