//! The message that a delivery sends, and the subject to which it is acknowledged.

ghost use Rattle.std.specs.Prelude.{◌≡◌, ◌++◌, IfOk, OnOk, codes, decimal};
ghost use Rattle.consumer_texts.specs.Deliveries.{ack_text, delivery_of};

use js_base::{Blob, NoMemory, Out, put_bytes, put_decimal};
use js_model::Message;
use std::alloc::Global;
use std::marker::Model;

/// What a delivery tells beside its message.
#[derive(Drop)]
pub struct Sending<'a> {
    /// The names of the stream and of the consumer.
    pub stream: &'a Blob,
    pub consumer: &'a Blob,
    /// How often the message was delivered by now.
    pub count: u64,
    /// The consumer sequence.
    pub dseq: u64,
    /// How many messages are still to be delivered.
    pub left: u64,
}

impl<'a> Model for Sending<'a> {
    ghost use Rattle.consumer_texts.specs.Deliveries.{SendingFacts};

    ghost Value = { SendingFacts };

    ghost view = { λ told. record { stream = told.stream.now; consumer = told.consumer.now; count = told.count; dseq = told.dseq; left = told.left } };
}

/// Adds the parts that name the stream and the consumer.
fn put_names(into: &mut Vec<u8>, stream: &[u8], consumer: &[u8]) -> Result<(), NoMemory>
    ensures ok { OnOk result (into.new.items ≡ into.old.items ++ (codes "$JS.ACK." ++ stream.now ++ codes "." ++ consumer.now)) }
{
    put_bytes(into, b"$JS.ACK.")?;
    put_bytes(into, stream)?;
    put_bytes(into, b".")?;
    put_bytes(into, consumer)
}

/// Adds a number behind a dot.
fn put_part(into: &mut Vec<u8>, n: u64) -> Result<(), NoMemory>
    ensures ok { OnOk result (into.new.items ≡ into.old.items ++ (codes "." ++ decimal n)) }
{
    put_bytes(into, b".")?;
    put_decimal(into, n)
}

/// Adds how often the message was delivered, its sequence and its consumer sequence.
fn put_sequences(into: &mut Vec<u8>, count: u64, seq: u64, dseq: u64) -> Result<(), NoMemory>
    ensures ok { OnOk result (into.new.items ≡ into.old.items ++ (codes "." ++ decimal count ++ codes "." ++ decimal seq ++ codes "." ++ decimal dseq)) }
{
    put_part(into, count)?;
    put_part(into, seq)?;
    put_part(into, dseq)
}

/// Adds the subject to which a delivery is acknowledged.
fn put_ack_subject(
    into: &mut Vec<u8>,
    told: &Sending<'_>,
    message: &Message,
) -> Result<(), NoMemory>
    ensures ok { OnOk result (into.new.items ≡ into.old.items ++ ack_text told.now message.now) }
{
    put_names(into, told.stream.as_slice(), told.consumer.as_slice())?;
    put_sequences(into, told.count, message.seq, told.dseq)?;
    put_part(into, message.at.as_nanos())?;
    put_part(into, told.left)
}

/// The subject to which a delivery is acknowledged: it names the stream and the consumer, and tells how often the message was delivered, its sequence,
/// its consumer sequence, when it was stored, and how many messages are still to be delivered.
fn ack_subject(alloc: Global, told: &Sending<'_>, message: &Message) -> Result<Blob, NoMemory>
    ensures value { IfOk result (λ subject. subject ≡ ack_text told.now message.now) }
{
    let mut text = Vec::new(alloc);
    put_ack_subject(&mut text, told, message)?;
    Blob::of(alloc, text.as_slice())
}

/// The message that a delivery sends to a subject, with the subject to which it is acknowledged as its reply. It shares the stored texts.
pub fn delivery_out(
    alloc: Global,
    told: &Sending<'_>,
    to: &Blob,
    message: &Message,
) -> Result<Out, NoMemory>
    ensures value { IfOk result (λ out. out ≡ delivery_of told.now to.now message.now) }
{
    Ok(Out {
        to: to.clone()?,
        subject: message.subject.clone()?,
        reply: Some(ack_subject(alloc, told, message)?),
        headers: message.headers.clone()?,
        payload: message.payload.clone()?,
    })
}
