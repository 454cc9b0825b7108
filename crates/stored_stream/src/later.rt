//! What is stored of a stream, as it is seen at a later moment.

ghost use Rattle.std.specs.Prelude.{◌≡◌, ◌^◌, ◌<◌, filter, length, sum_by, IfSome};
ghost use Rattle.js_base.specs.Bytes.{same};
ghost use Rattle.js_model.specs.Advance.{young};
ghost use Rattle.js_model.specs.Streams.{seqs, size};
ghost use Rattle.stream_view.specs.Counting.{counts_of};
ghost use Rattle.stored_stream.specs.Later.{counted_more, later, messages_from};
ghost use Rattle.stored_stream.specs.Stored.{IsSound};

use crate::ageing::is_young;
use crate::stored::StoredStream;
use js_base::Moment;
use js_model::StreamConfig;
use std::marker::Model;
use stream_view::{Counts, Head, View};

/// A stream as it is seen at a moment: the messages that are too old by then are not there. How many there are, how many bytes they have, and how many a
/// subject has, is counted message by message.
#[derive(Drop)]
pub struct LaterStream<'a> {
    stored: &'a StoredStream,
    now: Moment,
    /// The first sequence that is seen.
    first: u64,
}

impl<'a> Model for LaterStream<'a> {
    ghost use Rattle.js_model.specs.declared.stream.Stream.{Stream};
    ghost use Rattle.stored_stream.specs.Later.{later, IsSeenFrom};

    ghost Value = { Stream };

    ghost view = { λ l. later l.stored.now l.now };

    ghost invariant = { λ l. IsSeenFrom l.stored.now l.now l.first };
}

impl<'a> LaterStream<'a> {
    /// What is stored, at a moment. It goes through the messages that are too old by then, and takes no memory.
    pub fn at(stored: &'a StoredStream, now: Moment) -> LaterStream<'a>
        requires sound { IsSound stored.now }
        ensures value { result ≡ later stored.now now }
    {
        let first = first_young(stored, now);
        LaterStream { stored, now, first }
    }
}

impl<'a> View for LaterStream<'a> {
    ghost stream = { λ s. s };

    fn config(&self) -> &StreamConfig {
        self.stored.config()
    }

    fn moment(&self) -> Moment {
        self.now
    }

    fn last(&self) -> u64 {
        self.stored.last()
    }

    fn count(&self) -> u64 {
        count_from(self.stored, self.first)
    }

    fn bytes(&self) -> u64 {
        bytes_from(self.stored, self.first)
    }

    fn at_or_after(&self, seq: u64) -> Option<Head<'_>> {
        self.stored.at_or_after(seq.max(self.first))
    }

    fn at_or_before(&self, seq: u64) -> Option<Head<'_>> {
        let head = self.stored.at_or_before(seq)?;
        if head.seq < self.first {
            None
        } else {
            Some(head)
        }
    }

    fn of(&self, subject: &[u8]) -> Option<Counts> {
        counts_from(self.stored, self.first, subject)
    }
}

/// The sequence from which on the messages are not too old at a moment.
fn first_young(stored: &StoredStream, now: Moment) -> u64
    requires sound { IsSound stored.now }
    ensures young { young stored.now now ≡ messages_from result stored.now.messages }
{
    let max_age = stored.config().max_age;
    if max_age == 0 {
        return 0;
    }
    let mut from = 0;
    while let Some(message) = stored.first_from(from) {
        if is_young(message, max_age, now) {
            return message.seq;
        }
        from = message.seq + 1;
    }
    from
}

/// How many messages there are from a sequence on.
fn count_from(stored: &StoredStream, first: u64) -> u64
    requires sound { IsSound stored.now }
    ensures value { result ≡ length (messages_from first stored.now.messages) }
{
    let mut count = 0;
    let mut from = first;
    while let Some(message) = stored.first_from(from) {
        count += 1;
        from = message.seq + 1;
    }
    count
}

/// Their sizes together.
fn bytes_from(stored: &StoredStream, first: u64) -> u64
    requires sound { IsSound stored.now }
    ensures value { result ≡ sum_by size (messages_from first stored.now.messages) }
{
    let mut bytes = 0;
    let mut from = first;
    while let Some(head) = stored.at_or_after(from) {
        bytes += head.size;
        from = head.seq + 1;
    }
    bytes
}

/// How many of them have the subject, and the sequences of the first and the last of these.
fn counts_from(stored: &StoredStream, first: u64, subject: &[u8]) -> Option<Counts>
    requires sound { IsSound stored.now }
    ensures value { result ≡ counts_of (seqs (filter (λ m. same m.subject subject.now) (messages_from first stored.now.messages))) }
{
    let mut found = None;
    let mut from = first;
    while let Some(message) = stored.first_from(from) {
        if message.subject.as_slice() == subject {
            found = Some(counted_more(found, message.seq));
        }
        from = message.seq + 1;
    }
    found
}

/// What is counted with one sequence more.
fn counted_more(found: Option<Counts>, seq: u64) -> Counts
    requires room { IfSome found (λ counts. counts.count < 2 ^ 32) }
    ensures value { result ≡ counted_more found seq }
{
    match found {
        Some(counts) => Counts {
            count: counts.count + 1,
            first: counts.first,
            last: seq,
        },
        None => Counts {
            count: 1,
            first: seq,
            last: seq,
        },
    }
}
