//! The answers to publishes, as JetStream's PubAck.

ghost use Rattle.std.specs.Prelude.{◌≡◌, IfOk, IsUtf8};
ghost use Rattle.js_json.specs.Building.{shown};
ghost use Rattle.api_replies.specs.PubAcks.{stored_text, duplicate_text, unstored_members, unstored_text, publish_text};
ghost use Rattle.api_replies.specs.Printed.{IsAckText};

use crate::refusal::error_object;
use js_base::{ApiError, Blob, NoMemory};
use js_json::ObjectBuilder;
use js_model::Reply;
use std::alloc::Global;

/// The answer to a publish that was stored with this sequence.
#[tactic(auto, unfolding(crate::specs::PubAcks::stored_text))]
fn stored_text(alloc: Global, stream: &[u8], seq: u64) -> Result<Blob, NoMemory>
    requires utf8 { IsUtf8 stream.now }
    ensures text { IfOk result (λ text. text ≡ stored_text stream.now seq) }
{
    let mut made = ObjectBuilder::new(alloc);
    made.number("seq", seq)?;
    made.text("stream", stream)?;
    made.into_text()
}

/// The answer to a publish whose id was there with this sequence.
#[tactic(auto, unfolding(crate::specs::PubAcks::duplicate_text))]
fn duplicate_text(alloc: Global, stream: &[u8], seq: u64) -> Result<Blob, NoMemory>
    requires utf8 { IsUtf8 stream.now }
    ensures text { IfOk result (λ text. text ≡ duplicate_text stream.now seq) }
{
    let mut made = ObjectBuilder::new(alloc);
    made.truth("duplicate")?;
    made.number("seq", seq)?;
    made.text("stream", stream)?;
    made.into_text()
}

/// The members of the answer to a publish that was refused.
#[tactic(auto, unfolding(crate::specs::PubAcks::unstored_members))]
fn unstored_object(
    alloc: Global,
    stream: &[u8],
    refusal: &ApiError,
) -> Result<ObjectBuilder, NoMemory>
    requires utf8 { IsUtf8 stream.now }
    requires description { IsUtf8 refusal.now.text }
    ensures members { IfOk result (λ made. shown made ≡ unstored_members stream.now refusal.now) }
{
    let error = error_object(alloc, refusal)?;
    let mut made = ObjectBuilder::new(alloc);
    made.part("error", error)?;
    made.number("seq", 0)?;
    made.text("stream", stream)?;
    Ok(made)
}

/// The answer to a publish that was refused.
#[tactic(auto, unfolding(crate::specs::PubAcks::unstored_text), using(crate::proofs::Whole::unstored_whole))]
fn unstored_text(alloc: Global, stream: &[u8], refusal: &ApiError) -> Result<Blob, NoMemory>
    requires utf8 { IsUtf8 stream.now }
    requires description { IsUtf8 refusal.now.text }
    ensures text { IfOk result (λ text. text ≡ unstored_text stream.now refusal.now) }
{
    let made = unstored_object(alloc, stream, refusal)?;
    made.into_text()
}

/// The text that answers a publish to the stream, JSON without spaces, its keys ascending: the sequence, whether the message's id was there
/// before, or the refusal. It is `None` if the reply is not one to a publish. The texts that it shows must be UTF-8.
pub fn publish_text(alloc: Global, stream: &[u8], reply: &Reply) -> Result<Option<Blob>, NoMemory>
    requires utf8 { IsUtf8 stream.now }
    requires texts { IsAckText reply.now }
    ensures text { IfOk result (λ text. text ≡ publish_text stream.now reply.now) }
{
    match reply {
        Reply::Published(seq) => Ok(Some(stored_text(alloc, stream, *seq)?)),
        Reply::Duplicate(seq) => Ok(Some(duplicate_text(alloc, stream, *seq)?)),
        Reply::Refused(refusal) => Ok(Some(unstored_text(alloc, stream, refusal)?)),
        Reply::Info(_)
        | Reply::Done
        | Reply::Purged(_)
        | Reply::ConsumerInfo(_)
        | Reply::Message(_)
        | Reply::Names { .. }
        | Reply::Infos { .. }
        | Reply::Confirmed
        | Reply::Silent
        | Reply::Nobody => Ok(None),
    }
}
