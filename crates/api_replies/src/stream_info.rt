//! A stream's information as it is shown.

ghost use Rattle.std.specs.Prelude.{◌≡◌, OnOk, IfOk, IsUtf8};
ghost use Rattle.std.specs.List.{All};
ghost use Rattle.serde_json.specs.Data.{object, string, put as with_member};
ghost use Rattle.serde_json.specs.View.{items_view};
ghost use Rattle.js_json.specs.Building.{shown, with_all};
ghost use Rattle.api_replies.specs.Infos.{time_shown, ends_of, state_data, info_members, infos};
ghost use Rattle.api_replies.specs.Printed.{InfoIsText};

use js_base::{Moment, NoMemory};
use js_json::ObjectBuilder;
use js_model::StreamInfo;
use serde_json::Value;
use std::alloc::Global;
use stream_config::print;

/// Adds a moment, or the text for none.
fn put_time_shown(into: &mut ObjectBuilder, key: &str, at: Option<Moment>) -> Result<(), NoMemory>
    ensures ok { OnOk result (shown into.new ≡ with_member key.now (string (time_shown at)) (shown into.old)) }
{
    match at {
        Some(at) => into.time(key, at),
        None => into.text(key, b"0001-01-01T00:00:00Z"),
    }
}

/// Adds the first and the last sequence, and their moments.
fn put_ends(into: &mut ObjectBuilder, info: &StreamInfo) -> Result<(), NoMemory>
    ensures ok { OnOk result (shown into.new ≡ with_all (ends_of info.now) (shown into.old)) }
{
    into.number("first_seq", info.first_seq)?;
    put_time_shown(into, "first_ts", info.first_at)?;
    into.number("last_seq", info.last_seq)?;
    put_time_shown(into, "last_ts", info.last_at)
}

/// What the stream holds.
#[tactic(auto, unfolding(crate::specs::Infos::state_data))]
fn state_object(alloc: Global, info: &StreamInfo) -> Result<ObjectBuilder, NoMemory>
    ensures value { IfOk result (λ made. object (shown made) ≡ state_data info.now) }
{
    let mut made = ObjectBuilder::new(alloc);
    made.number("bytes", info.bytes)?;
    made.number("consumer_count", info.consumers)?;
    put_ends(&mut made, info)?;
    made.number("messages", info.messages)?;
    Ok(made)
}

/// The information as it is shown, without its kind.
#[tactic(auto, unfolding(crate::specs::Infos::info_members))]
pub(crate) fn info_object(alloc: Global, info: &StreamInfo) -> Result<ObjectBuilder, NoMemory>
    requires texts { InfoIsText info.now }
    ensures value { IfOk result (λ made. shown made ≡ info_members info.now) }
{
    let mut made = ObjectBuilder::new(alloc);
    let config = print(alloc, &info.config)?;
    made.value("config", config)?;
    made.time("created", info.made)?;
    let state = state_object(alloc, info)?;
    made.part("state", state)?;
    Ok(made)
}

/// The informations as values.
pub(crate) fn info_values(alloc: Global, list: &[StreamInfo]) -> Result<Vec<Value>, NoMemory>
    requires texts { All InfoIsText list.now }
    ensures values { IfOk result (λ values. items_view values.items ≡ infos list.now) }
{
    let mut values = Vec::new(alloc);
    for info in list {
        values.push(info_object(alloc, info)?.into_value())?;
    }
    Ok(values)
}
