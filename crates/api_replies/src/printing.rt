//! The texts of replies.

ghost use Rattle.std.specs.Prelude.{◌≡◌, OnOk, IfOk, IsUtf8, codes};
ghost use Rattle.std.specs.List.{All};
ghost use Rattle.serde_json.specs.Data.{object, put as with_member};
ghost use Rattle.serde_json.specs.View.{items_view};
ghost use Rattle.js_json.specs.Building.{shown, with_all, object_with, texts};
ghost use Rattle.js_model.specs.Limits.{names_a_page, infos_a_page};
ghost use Rattle.api_replies.specs.Infos.{infos};
ghost use Rattle.api_replies.specs.Consumers.{consumers as consumer_items};
ghost use Rattle.api_replies.specs.Replies.{calls_of, limits_of, usage_of, account_members, page_members, success_members, purge_members, reply_members, reply_name, kind, reply_text};
ghost use Rattle.api_replies.specs.Printed.{InfoIsText, ConsumerIsText, IsText};

use crate::consumer::{consumer_object, consumer_values};
use crate::message::stored_object;
use crate::refusal::refused_object;
use crate::reply::ApiReply;
use crate::stream_info::{info_object, info_values};
use api_calls::ApiCall;
use js_base::{Blob, NoMemory};
use js_json::{ObjectBuilder, text_values};
use js_model::{ConsumerInfo, INFOS_A_PAGE, NAMES_A_PAGE, PLACES, StreamInfo};
use serde_json::Value;
use std::alloc::Global;
use std::str;

/// How many calls there were: the server counts none.
fn calls_object(alloc: Global) -> Result<ObjectBuilder, NoMemory>
    ensures members { IfOk result (λ made. object (shown made) ≡ object_with calls_of) }
{
    let mut made = ObjectBuilder::new(alloc);
    made.number("errors", 0)?;
    made.number("total", 0)?;
    Ok(made)
}

/// What the account may have.
fn limits_object(alloc: Global) -> Result<ObjectBuilder, NoMemory>
    ensures members { IfOk result (λ made. object (shown made) ≡ object_with limits_of) }
{
    let mut made = ObjectBuilder::new(alloc);
    made.limit("max_consumers", None)?;
    made.number("max_memory", 0)?;
    made.limit("max_storage", None)?;
    made.number("max_streams", u64::from(PLACES))?;
    Ok(made)
}

/// Adds what the account has.
fn put_usage(into: &mut ObjectBuilder, storage: u64, streams: u64) -> Result<(), NoMemory>
    ensures ok { OnOk result (shown into.new ≡ with_all (usage_of storage streams) (shown into.old)) }
{
    into.number("memory", 0)?;
    into.number("storage", storage)?;
    into.number("streams", streams)
}

/// The account.
#[tactic(auto, unfolding(crate::specs::Replies::account_members))]
fn account_object(
    alloc: Global,
    consumers: u64,
    storage: u64,
    streams: u64,
) -> Result<ObjectBuilder, NoMemory>
    ensures members { IfOk result (λ made. shown made ≡ account_members consumers storage streams) }
{
    let mut made = ObjectBuilder::new(alloc);
    let calls = calls_object(alloc)?;
    made.part("api", calls)?;
    made.number("consumers", consumers)?;
    let limits = limits_object(alloc)?;
    made.part("limits", limits)?;
    put_usage(&mut made, storage, streams)?;
    Ok(made)
}

/// A page of a list.
#[tactic(auto, unfolding(crate::specs::Replies::page_members))]
fn page_object(
    alloc: Global,
    most: u64,
    key: &str,
    list: Vec<Value>,
    offset: u64,
    total: u64,
) -> Result<ObjectBuilder, NoMemory>
    ensures members { IfOk result (λ made. shown made ≡ page_members most key.now (items_view list.items) offset total) }
{
    let mut made = ObjectBuilder::new(alloc);
    made.number("limit", most)?;
    made.number("offset", offset)?;
    made.value(key, Value::Array(list))?;
    made.number("total", total)?;
    Ok(made)
}

/// A page of names.
fn names_object(
    alloc: Global,
    key: &str,
    names: &[Blob],
    offset: u64,
    total: u64,
) -> Result<ObjectBuilder, NoMemory>
    requires utf8 { All IsUtf8 names.now }
    ensures members { IfOk result (λ made. shown made ≡ page_members names_a_page key.now (texts names.now) offset total) }
{
    let list = text_values(alloc, names)?;
    page_object(alloc, NAMES_A_PAGE, key, list, offset, total)
}

/// A page of the informations of streams.
fn infos_object(
    alloc: Global,
    streams: &[StreamInfo],
    offset: u64,
    total: u64,
) -> Result<ObjectBuilder, NoMemory>
    requires utf8 { All InfoIsText streams.now }
    ensures members { IfOk result (λ made. shown made ≡ page_members infos_a_page (codes "streams") (infos streams.now) offset total) }
{
    let list = info_values(alloc, streams)?;
    page_object(alloc, INFOS_A_PAGE, "streams", list, offset, total)
}

/// A page of the informations of consumers.
fn consumers_object(
    alloc: Global,
    consumers: &[ConsumerInfo],
    offset: u64,
    total: u64,
) -> Result<ObjectBuilder, NoMemory>
    requires utf8 { All ConsumerIsText consumers.now }
    ensures members { IfOk result (λ made. shown made ≡ page_members infos_a_page (codes "consumers") (consumer_items consumers.now) offset total) }
{
    let list = consumer_values(alloc, consumers)?;
    page_object(alloc, INFOS_A_PAGE, "consumers", list, offset, total)
}

/// That it was done.
#[tactic(auto, unfolding(crate::specs::Replies::success_members))]
fn success_object(alloc: Global) -> Result<ObjectBuilder, NoMemory>
    ensures members { IfOk result (λ made. shown made ≡ success_members) }
{
    let mut made = ObjectBuilder::new(alloc);
    made.truth("success")?;
    Ok(made)
}

/// That so many messages were removed.
#[tactic(auto, unfolding(crate::specs::Replies::purge_members))]
fn purge_object(alloc: Global, purged: u64) -> Result<ObjectBuilder, NoMemory>
    ensures members { IfOk result (λ made. shown made ≡ purge_members purged) }
{
    let mut made = ObjectBuilder::new(alloc);
    made.number("purged", purged)?;
    made.truth("success")?;
    Ok(made)
}

/// Adds what kind of reply it is, by its name.
fn put_kind(alloc: Global, into: &mut ObjectBuilder, name: &[u8]) -> Result<(), NoMemory>
    requires utf8 { IsUtf8 name.now }
    ensures ok { OnOk result (shown into.new ≡ with_member (codes "type") (kind name.now) (shown into.old)) }
{
    let name = str::from_utf8(name).unwrap_or("");
    let text = format!(in alloc; "io.nats.jetstream.api.v1.{name}_response")?;
    into.value("type", Value::String(text))
}

/// The members of a reply without its kind.
#[tactic(auto, unfolding(crate::specs::Replies::reply_members))]
fn reply_object(alloc: Global, reply: &ApiReply) -> Result<ObjectBuilder, NoMemory>
    requires texts { IsText reply.now }
    ensures members { IfOk result (λ made. shown made ≡ reply_members reply.now) }
{
    match reply {
        ApiReply::AccountInfo {
            consumers,
            storage,
            streams,
        } => account_object(alloc, *consumers, *storage, *streams),
        ApiReply::StreamCreate(info) | ApiReply::StreamUpdate(info) | ApiReply::StreamInfo(info) =>
            { info_object(alloc, info) }
        ApiReply::StreamMsgGet(message) => stored_object(alloc, message),
        ApiReply::ConsumerCreate(info) | ApiReply::ConsumerInfo(info) => {
            consumer_object(alloc, info)
        }
        ApiReply::StreamDelete | ApiReply::StreamMsgDelete | ApiReply::ConsumerDelete => {
            success_object(alloc)
        }
        ApiReply::StreamPurge { purged } => purge_object(alloc, *purged),
        ApiReply::StreamNames {
            offset,
            streams,
            total,
        } => names_object(alloc, "streams", streams.as_slice(), *offset, *total),
        ApiReply::StreamList {
            offset,
            streams,
            total,
        } => infos_object(alloc, streams.as_slice(), *offset, *total),
        ApiReply::ConsumerNames {
            consumers,
            offset,
            total,
        } => names_object(alloc, "consumers", consumers.as_slice(), *offset, *total),
        ApiReply::ConsumerList {
            consumers,
            offset,
            total,
        } => consumers_object(alloc, consumers.as_slice(), *offset, *total),
        ApiReply::Refused(_, refusal) => refused_object(alloc, refusal),
    }
}

/// The name of a reply, as it stands in its kind.
fn reply_name(reply: &ApiReply) -> &[u8]
    requires texts { IsText reply.now }
    ensures name { result.now ≡ reply_name reply.now }
    ensures utf8 { IsUtf8 result.now }
{
    match reply {
        ApiReply::AccountInfo { .. } => ApiCall::AccountInfo.name(),
        ApiReply::StreamCreate(_) => ApiCall::StreamCreate.name(),
        ApiReply::StreamUpdate(_) => ApiCall::StreamUpdate.name(),
        ApiReply::StreamInfo(_) => ApiCall::StreamInfo.name(),
        ApiReply::StreamDelete => ApiCall::StreamDelete.name(),
        ApiReply::StreamPurge { .. } => ApiCall::StreamPurge.name(),
        ApiReply::StreamNames { .. } => ApiCall::StreamNames.name(),
        ApiReply::StreamList { .. } => ApiCall::StreamList.name(),
        ApiReply::StreamMsgGet(_) => ApiCall::StreamMsgGet.name(),
        ApiReply::StreamMsgDelete => ApiCall::StreamMsgDelete.name(),
        ApiReply::ConsumerCreate(_) => ApiCall::ConsumerCreate.name(),
        ApiReply::ConsumerInfo(_) => ApiCall::ConsumerInfo.name(),
        ApiReply::ConsumerDelete => ApiCall::ConsumerDelete.name(),
        ApiReply::ConsumerNames { .. } => ApiCall::ConsumerNames.name(),
        ApiReply::ConsumerList { .. } => ApiCall::ConsumerList.name(),
        ApiReply::Refused(name, _) => name.as_slice(),
    }
}

/// The text of a reply: JSON without spaces, its keys ascending. The texts that it shows must be UTF-8.
#[tactic(auto, unfolding(crate::specs::Replies::reply_text))]
pub fn reply_text(alloc: Global, reply: &ApiReply) -> Result<Blob, NoMemory>
    requires texts { IsText reply.now }
    ensures text { IfOk result (λ text. text ≡ reply_text reply.now) }
{
    let mut made = reply_object(alloc, reply)?;
    put_kind(alloc, &mut made, reply_name(reply))?;
    made.into_text()
}
