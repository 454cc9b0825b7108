//! By how much what is asked may raise what a place comes to.

ghost use Rattle.std.specs.Prelude.{◌≡◌, ◌+◌, ◌≤◌, ◌^◌, Bool, IfOk, IsTrue, Option, is_none};
ghost use Rattle.js_base.specs.Bytes.{Bytes};
ghost use Rattle.js_model.specs.declared.event.What.{What};
ghost use Rattle.js_model.specs.Configs.{is_consumer_config, is_stream_config};
ghost use Rattle.js_model.specs.Proper.{is_proper_what};
ghost use Rattle.model_laws.specs.Bounds.{IsBounded};
ghost use Rattle.place_engine.specs.Places.{name_in};
ghost use Rattle.snapshot_bound.specs.Bounds.{bound_with, capped};
ghost use Rattle.snapshot_bound.specs.Laws.{if_room};
ghost use Rattle.volume_place.specs.Growing.{IsGrowth};

use js_base::{Blob, NoMemory};
use js_model::{ConsumerConfig, Publish, StreamConfig, What};
use memory_place::Slot;
use snapshot_bound::{
    bound_by, consumer_counted, consumer_fixed, ids_length, message_growth, most_picked,
    stream_length,
};
use std::alloc::Global;

/// What a place without a stream comes to, in bytes.
const VACANT: u64 = 39;

/// How much more one comes to with a stream, besides its configuration.
const STREAM: u64 = 54;

/// By how many bytes something raises what a place comes to.
#[derive(Clone, Copy)]
pub(crate) struct Growth {
    /// In its texts, which count whatever messages there are.
    pub(crate) fixed: u64,
    /// In all else.
    pub(crate) counted: u64,
}

impl Growth {
    /// Nothing is raised.
    fn none() -> Growth
        ensures value { result ≡ record { fixed = 0; counted = 0 } }
    {
        Growth {
            fixed: 0,
            counted: 0,
        }
    }

    /// A number that texts take no more than, with those of what was asked if there was room for it; 2^64 - 1 if that is more.
    pub(crate) fn raise(self, known: u64, room: bool) -> u64
        ensures value { result ≡ capped (known + if_room room self.fixed) }
    {
        if room {
            known.saturating_add(self.fixed)
        } else {
            known
        }
    }

    /// In all; 2^64 - 1 if that is more.
    pub(crate) fn whole(self) -> u64
        ensures value { result ≡ capped (self.fixed + self.counted) }
    {
        self.fixed.saturating_add(self.counted)
    }
}

/// Whether there is no stream.
fn is_vacant(slot: &Slot) -> bool
    ensures value { result ≡ is_none (name_in slot.now) }
{
    slot.name().is_none()
}

/// What the place comes to at most, in bytes, if its texts take no more than so much.
pub(crate) fn bound_with(slot: &Slot, known: u64) -> u64
    requires known { known ≤ 2 ^ 31 }
    requires bounded { IsBounded slot.now }
    ensures value { result ≡ bound_with known slot.now }
{
    if is_vacant(slot) {
        return known + VACANT;
    }
    let ids = ids_length(slot.id_count(), slot.id_bytes());
    bound_by(known, ids, slot.messages(), slot.consumer_count())
}

/// By how much what is asked may raise that.
pub(crate) fn growth_of(alloc: Global, slot: &Slot, what: &What) -> Result<Growth, NoMemory>
    requires proper { IsTrue (is_proper_what what.now) }
    ensures value { IfOk result (IsGrowth slot.now what.now) }
{
    match what {
        What::Publish(publish) => Ok(publish_growth(slot, publish)),
        What::Make { config, .. } => make_growth(alloc, slot, config),
        What::Change { config, .. } => change_growth(alloc, slot, config),
        What::MakeConsumer { name, config, .. } => consumer_growth(alloc, slot, name, config),
        _ => Ok(Growth::none()),
    }
}

/// By how much a message may.
fn publish_growth(slot: &Slot, publish: &Publish) -> Growth
    ensures value { IsGrowth slot.now (What.Publish publish.now) result }
{
    if is_vacant(slot) {
        return Growth::none();
    }
    let id = publish.wants.id.len() as u64;
    Growth {
        fixed: 0,
        counted: message_growth(id, slot.consumer_count()),
    }
}

/// By how much a stream may, which is made where there is none.
fn make_growth(alloc: Global, slot: &Slot, config: &StreamConfig) -> Result<Growth, NoMemory>
    requires valid { IsTrue (is_stream_config config.now) }
    ensures value { (reply : Option Bytes) → IfOk result (IsGrowth slot.now (What.Make reply config.now)) }
{
    if is_vacant(slot) {
        let fixed = stream_length(alloc, config)?;
        return Ok(Growth {
            fixed,
            counted: STREAM,
        });
    }
    Ok(Growth::none())
}

/// By how much a configuration may, if it is another one than that of the stream.
fn change_growth(alloc: Global, slot: &Slot, config: &StreamConfig) -> Result<Growth, NoMemory>
    requires valid { IsTrue (is_stream_config config.now) }
    ensures value { (reply : Option Bytes) → IfOk result (IsGrowth slot.now (What.Change reply config.now)) }
{
    if is_vacant(slot) {
        return Ok(Growth::none());
    }
    if slot.has_config(config) {
        return Ok(Growth::none());
    }
    let fixed = stream_length(alloc, config)?;
    Ok(Growth { fixed, counted: 0 })
}

/// By how much a consumer may, if the stream has none of its name.
fn consumer_growth(
    alloc: Global,
    slot: &Slot,
    name: &Blob,
    config: &ConsumerConfig,
) -> Result<Growth, NoMemory>
    requires valid { IsTrue (is_consumer_config config.now) }
    ensures value { (reply : Option Bytes) (update : Bool) → IfOk result (IsGrowth slot.now (What.MakeConsumer reply name.now config.now update)) }
{
    if is_vacant(slot) {
        return Ok(Growth::none());
    }
    if slot.has_consumer(name) {
        return Ok(Growth::none());
    }
    let messages = slot.messages();
    let picked = most_picked(&config.deliver_policy, messages);
    let fixed = consumer_fixed(alloc, name.as_slice(), config, picked)?;
    Ok(Growth {
        fixed,
        counted: consumer_counted(messages),
    })
}
