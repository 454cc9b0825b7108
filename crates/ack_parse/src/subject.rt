//! The subjects to which deliveries are acknowledged.

ghost use Rattle.std.specs.Prelude.{◌≡◌, map, IfOk};
ghost use Rattle.js_base.specs.Subjects.{tokens};
ghost use Rattle.ack_parse.specs.Answers.{Reads, Named};
ghost use Rattle.ack_parse.specs.Subjects.{name_at, number_at, is_ack, delivered_by, subject_of};

use crate::fault::AckFault;
use js_base::{Blob, Name, NameFault, NoMemory, read_decimal};
use std::alloc::{AllocError, Global};

/// The tokens of a subject, behind `$JS` and `ACK`.
#[derive(Clone, Copy)]
struct Tokens<'a> {
    stream: &'a [u8],
    consumer: &'a [u8],
    count: &'a [u8],
    sequence: &'a [u8],
    consumer_sequence: &'a [u8],
    time: &'a [u8],
    pending: &'a [u8],
}

/// What is acknowledged: the message with this sequence, by this consumer of this stream.
#[derive(Drop)]
pub(crate) struct Delivered {
    pub(crate) stream: Blob,
    pub(crate) consumer: Blob,
    pub(crate) seq: u64,
}

/// The name that the token at this place is.
fn name_at(alloc: Global, place: usize, token: &[u8]) -> Result<Blob, AckFault>
    ensures reading { Reads result (name_at place token.now) }
{
    match Name::read(alloc, token) {
        Ok(name) => name.as_blob().clone().map_err(|_| AckFault::NoMemory),
        Err(NameFault::NoMemory) => Err(AckFault::NoMemory),
        Err(_) => Err(AckFault::BadToken(place)),
    }
}

/// The number below 2^62 that the token at this place spells.
fn number_at(place: usize, token: &[u8]) -> Result<u64, AckFault>
    ensures reading { result ≡ number_at place token.now }
{
    read_decimal(token).map_err(|_| AckFault::BadToken(place))
}

/// What is acknowledged, by the seven tokens behind the first two. Four of the numbers are read alone.
#[tactic(auto, unfolding(crate::specs::Subjects::delivered_of))]
fn read_delivered(alloc: Global, tokens: &Tokens) -> Result<Delivered, AckFault>
    ensures reading { Reads result (delivered_by tokens.now) }
{
    let stream = name_at(alloc, 2, tokens.stream)?;
    let consumer = name_at(alloc, 3, tokens.consumer)?;
    number_at(4, tokens.count)?;
    let seq = number_at(5, tokens.sequence)?;
    number_at(6, tokens.consumer_sequence)?;
    number_at(7, tokens.time)?;
    number_at(8, tokens.pending)?;
    Ok(Delivered {
        stream,
        consumer,
        seq,
    })
}

/// The tokens of a subject.
fn tokens_of(alloc: Global, subject: &[u8]) -> Result<Vec<&[u8]>, AllocError>
    ensures value { IfOk result (λ parts. map (λ part. part.now) parts.items ≡ tokens subject.now) }
{
    subject.split(|byte| *byte == b'.').collect(alloc)
}

/// Whether the first two tokens are right.
fn is_ack(first: &[u8], second: &[u8]) -> bool
    ensures value { result ≡ is_ack first.now second.now }
{
    first == b"$JS".as_slice() && second == b"ACK".as_slice()
}

/// The tokens of a subject to which deliveries are acknowledged.
#[tactic(auto, using(crate::proofs::Tokens::nine, crate::proofs::Tokens::other_words, crate::proofs::Tokens::other_length))]
fn named<'a>(tokens: &[&'a [u8]]) -> Option<Tokens<'a>>
    ensures named { Named result (map (λ token. token.now) tokens.now) }
{
    if tokens.len() != 9 {
        return None;
    }
    if !is_ack(tokens[0], tokens[1]) {
        return None;
    }
    Some(Tokens {
        stream: tokens[2],
        consumer: tokens[3],
        count: tokens[4],
        sequence: tokens[5],
        consumer_sequence: tokens[6],
        time: tokens[7],
        pending: tokens[8],
    })
}

/// What is acknowledged at the subject.
#[tactic(auto, unfolding(crate::specs::Subjects::subject_of))]
pub(crate) fn delivered_at(alloc: Global, subject: &[u8]) -> Result<Delivered, AckFault>
    ensures reading { Reads result (subject_of subject.now) }
{
    let Ok(tokens) = tokens_of(alloc, subject) else {
        return Err(AckFault::NoMemory);
    };
    match named(tokens.as_slice()) {
        Some(tokens) => read_delivered(alloc, &tokens),
        None => Err(AckFault::NotAck),
    }
}
