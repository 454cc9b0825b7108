//! A consumer's information as it is shown.

ghost use Rattle.std.specs.Prelude.{◌≡◌, OnOk, IfOk};
ghost use Rattle.std.specs.List.{All};
ghost use Rattle.serde_json.specs.Data.{object};
ghost use Rattle.serde_json.specs.View.{items_view};
ghost use Rattle.js_json.specs.Building.{shown, with_all, object_with};
ghost use Rattle.api_replies.specs.Consumers.{ack_floor_of, delivered_of, counts_of, progress_of, consumer_members, consumers};
ghost use Rattle.api_replies.specs.Printed.{ConsumerIsText};

use consumer_config::print;
use js_base::NoMemory;
use js_json::ObjectBuilder;
use js_model::{ConsumerInfo, Info};
use serde_json::Value;
use std::alloc::Global;

/// Up to where everything is acknowledged.
fn ack_floor_object(alloc: Global, numbers: &Info) -> Result<ObjectBuilder, NoMemory>
    ensures value { IfOk result (λ made. object (shown made) ≡ object_with (ack_floor_of numbers.now)) }
{
    let mut made = ObjectBuilder::new(alloc);
    made.number("stream_seq", numbers.ack_floor)?;
    Ok(made)
}

/// The last delivery.
fn delivered_object(alloc: Global, numbers: &Info) -> Result<ObjectBuilder, NoMemory>
    ensures value { IfOk result (λ made. object (shown made) ≡ object_with (delivered_of numbers.now)) }
{
    let mut made = ObjectBuilder::new(alloc);
    made.number("consumer_seq", numbers.consumer_seq)?;
    made.number("stream_seq", numbers.stream_seq)?;
    Ok(made)
}

/// Adds how many messages and pulls wait.
fn put_counts(into: &mut ObjectBuilder, numbers: &Info) -> Result<(), NoMemory>
    ensures ok { OnOk result (shown into.new ≡ with_all (counts_of numbers.now) (shown into.old)) }
{
    into.number("num_ack_pending", numbers.ack_pending)?;
    into.number("num_pending", numbers.pending)?;
    into.number("num_redelivered", numbers.redelivered)?;
    into.number("num_waiting", numbers.waiting)
}

/// Adds how far the consumer is.
fn put_progress(alloc: Global, into: &mut ObjectBuilder, numbers: &Info) -> Result<(), NoMemory>
    ensures ok { OnOk result (shown into.new ≡ with_all (progress_of numbers.now) (shown into.old)) }
{
    let ack_floor = ack_floor_object(alloc, numbers)?;
    into.part("ack_floor", ack_floor)?;
    let delivered = delivered_object(alloc, numbers)?;
    into.part("delivered", delivered)?;
    put_counts(into, numbers)
}

/// The information as it is shown, without its kind.
#[tactic(auto, unfolding(crate::specs::Consumers::consumer_members))]
pub(crate) fn consumer_object(alloc: Global, info: &ConsumerInfo) -> Result<ObjectBuilder, NoMemory>
    requires texts { ConsumerIsText info.now }
    ensures value { IfOk result (λ made. shown made ≡ consumer_members info.now) }
{
    let mut made = ObjectBuilder::new(alloc);
    let config = print(alloc, &info.config)?;
    made.value("config", config)?;
    made.time("created", info.made)?;
    made.text("name", info.name.as_slice())?;
    made.text("stream_name", info.stream.as_slice())?;
    put_progress(alloc, &mut made, &info.info)?;
    Ok(made)
}

/// The informations as values.
pub(crate) fn consumer_values(alloc: Global, list: &[ConsumerInfo]) -> Result<Vec<Value>, NoMemory>
    requires texts { All ConsumerIsText list.now }
    ensures values { IfOk result (λ values. items_view values.items ≡ consumers list.now) }
{
    let mut values = Vec::new(alloc);
    for info in list {
        values.push(consumer_object(alloc, info)?.into_value())?;
    }
    Ok(values)
}
