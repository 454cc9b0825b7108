//! What is done to a place with the stream `ORDERS` and its consumer `W`.

ghost use Rattle.std.specs.Prelude.{IfOk};
ghost use Rattle.place_drive.specs.Asked.{IsAsked};

use js_base::{Blob, List, NoMemory};
use js_model::{AckKind, Ask, Discard, Publish, Retention, StreamConfig, Wants, What};
use place_drive::{ack, consumer, publish, pull, stream};
use std::alloc::Global;

/// A pull of one message that waits for ever.
const ONE: Ask = Ask {
    batch: 1,
    expires: 0,
    no_wait: false,
    max_bytes: None,
    heartbeat: 0,
};

/// What is done.
#[derive(Clone, Copy, Debug, PartialEq, Eq)]
pub enum Deed {
    Make,
    MakeConsumer,
    Publish,
    PublishWithId,
    /// One message is pulled, and delivered then.
    Deliver,
    /// The first message is acknowledged.
    Acknowledge,
    Update,
    Purge,
    Drop,
}

/// A message for `orders.b` with an id.
fn publish_under(alloc: Global, id: &[u8]) -> Result<What, NoMemory>
    ensures asked { IfOk result IsAsked }
{
    Ok(What::Publish(Publish {
        reply: None,
        subject: Blob::of(alloc, b"orders.b")?,
        headers: Blob::empty(),
        payload: Blob::of(alloc, b"with an id")?,
        wants: Wants {
            bad: None,
            id: Blob::of(alloc, id)?,
            stream: None,
            last: None,
            subject_last: None,
            last_id: None,
        },
    }))
}

/// A message with the id `k1`.
pub fn publish_with_id(alloc: Global) -> Result<What, NoMemory>
    ensures asked { IfOk result IsAsked }
{
    publish_under(alloc, b"k1")
}

/// The stream is to keep only its last message.
fn update(alloc: Global) -> Result<What, NoMemory>
    ensures asked { IfOk result IsAsked }
{
    let mut subjects = List::new(alloc);
    subjects.push(Blob::of(alloc, b"orders.*")?)?;
    Ok(What::Change {
        reply: None,
        config: StreamConfig {
            description: Blob::empty(),
            discard: Discard::Old,
            duplicate_window: 120_000_000_000,
            max_age: 0,
            max_bytes: None,
            max_consumers: None,
            max_msg_size: None,
            max_msgs: Some(1),
            max_msgs_per_subject: None,
            name: Blob::of(alloc, b"ORDERS")?,
            retention: Retention::Limits,
            subjects,
        },
    })
}

/// All messages are to go.
fn purge() -> What
    ensures asked { IsAsked result }
{
    What::Purge {
        reply: None,
        filter: Blob::empty(),
        below: None,
        keep: None,
    }
}

/// The stream is to go.
fn drop_stream() -> What
    ensures asked { IsAsked result }
{
    What::Drop { reply: None }
}

/// Time passes.
pub fn tick() -> What
    ensures asked { IsAsked result }
{
    What::Tick
}

/// What the place is asked for it.
pub fn what_of(alloc: Global, deed: Deed) -> Result<What, NoMemory>
    ensures asked { IfOk result IsAsked }
{
    match deed {
        Deed::Make => stream(alloc, Retention::Limits),
        Deed::MakeConsumer => consumer(alloc, b"W", None, None),
        Deed::Publish => publish(alloc, b"hello"),
        Deed::PublishWithId => publish_with_id(alloc),
        Deed::Deliver => pull(alloc, b"W", ONE),
        Deed::Acknowledge => ack(alloc, b"W", 1, AckKind::Ack),
        Deed::Update => update(alloc),
        Deed::Purge => Ok(purge()),
        Deed::Drop => Ok(drop_stream()),
    }
}
