//! A place is led to a state, and makes its steps.

ghost use Rattle.std.specs.Prelude.{IsTrue};
ghost use Rattle.js_model.specs.Configs.{is_name};

use crate::measurement::{Kind, Measurement};
use js_base::NoMemory;
use js_model::{AckKind, Ask, What};
use place_drive::{Driven, ack, consumer, publish, pull, stream};
use std::alloc::Global;

/// The consumer whose deliveries are pending.
const WORKER: &[u8] = b"W";

/// What each message carries: 100 bytes.
const PAYLOAD: &[u8] =
    b"xxxxxxxxxxxxxxxxxxxxxxxxxxxxxxxxxxxxxxxxxxxxxxxxxxxxxxxxxxxxxxxxxxxxxxxxxxxxxxxxxxxxxxxxxxxxxxxxxxxx";

/// By how many nanoseconds time goes on before each step.
const PAUSE: u64 = 100;

/// A pull of one message that waits for ever.
const ONE: Ask = Ask {
    batch: 1,
    expires: 0,
    no_wait: false,
    max_bytes: None,
    heartbeat: 0,
};

/// What a place holds.
#[derive(Clone, Copy)]
pub(crate) struct Held {
    /// The messages of its stream.
    pub(crate) messages: u64,
    /// The pending deliveries of the consumer.
    pub(crate) pending: u64,
}

/// A name of two letters for each number.
fn name_of(number: u8) -> [u8; 2]
    ensures name { IsTrue (is_name result) }
{
    [b'a' + number / 16, b'a' + number % 16]
}

fn add_consumers(place: &mut Driven, alloc: Global, others: u8) -> Result<(), NoMemory> {
    place.make(consumer(alloc, WORKER, None, None)?)?;
    for number in 0..others {
        place.make(consumer(alloc, &name_of(number), None, None)?)?;
    }
    Ok(())
}

fn publish_all(place: &mut Driven, alloc: Global, count: u32) -> Result<(), NoMemory> {
    for _ in 0..count {
        place.make(publish(alloc, PAYLOAD)?)?;
    }
    Ok(())
}

/// The consumer pulls the next message, and it is delivered.
fn deliver_next(place: &mut Driven, alloc: Global) -> Result<(), NoMemory> {
    place.make(pull(alloc, WORKER, ONE)?)?;
    place.deliver()?;
    place.forget();
    Ok(())
}

fn deliver_all(place: &mut Driven, alloc: Global, count: u32) -> Result<(), NoMemory> {
    for _ in 0..count {
        deliver_next(place, alloc)?;
    }
    Ok(())
}

/// Leads a place that never had a stream to the state before the steps.
fn prepare(place: &mut Driven, alloc: Global, measurement: Measurement) -> Result<(), NoMemory> {
    place.make(stream(alloc, measurement.retention)?)?;
    add_consumers(place, alloc, measurement.others)?;
    publish_all(place, alloc, measurement.stored)?;
    deliver_all(place, alloc, measurement.pending)
}

/// Acknowledges the first pending message, after so many steps that did the same.
fn acknowledge(place: &mut Driven, alloc: Global, step: u32) -> Result<(), NoMemory> {
    place.make(ack(alloc, WORKER, u64::from(step) + 1, AckKind::Ack)?)
}

/// Tells that the work at a pending message goes on, at another one in each step.
fn go_on(place: &mut Driven, alloc: Global, pending: u32, step: u32) -> Result<(), NoMemory> {
    let at = step.checked_rem(pending).unwrap_or(0);
    place.make(ack(alloc, WORKER, u64::from(at) + 1, AckKind::Wpi)?)
}

fn make_step(
    place: &mut Driven,
    alloc: Global,
    measurement: Measurement,
    step: u32,
) -> Result<(), NoMemory> {
    match measurement.kind {
        Kind::Deliver => {
            deliver_next(place, alloc)?;
            acknowledge(place, alloc, step)
        }
        Kind::Progress => go_on(place, alloc, measurement.pending, step),
        Kind::Tick => place.make(What::Tick),
        Kind::Publish => place.make(publish(alloc, PAYLOAD)?),
        Kind::Look => {
            place.deliver()?;
            Ok(())
        }
    }
}

/// Makes the steps at a place that never had a stream, and tells what it holds then.
pub(crate) fn measure(
    place: &mut Driven,
    alloc: Global,
    measurement: Measurement,
) -> Result<Held, NoMemory> {
    prepare(place, alloc, measurement)?;
    for step in 0..measurement.steps {
        place.wait(PAUSE);
        make_step(place, alloc, measurement, step)?;
    }
    Ok(Held {
        messages: place.messages()?.unwrap_or(0),
        pending: place.pending(WORKER)?.unwrap_or(0),
    })
}
