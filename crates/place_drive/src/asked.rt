//! What a place is asked, as readers give it.

ghost use Rattle.std.specs.Prelude.{◌≤◌, ◌-◌, ◌^◌, length, IfOk, IsTrue};
ghost use Rattle.js_model.specs.Configs.{is_limit, is_name, is_number};
ghost use Rattle.js_model.specs.Proper.{is_proper_ask, is_proper_kind};
ghost use Rattle.place_drive.specs.Asked.{IsAsked};

use js_base::{Blob, List, NoMemory};
use js_model::{
    Ack, AckKind, AckPolicy, Ask, ConsumerConfig, DeliverPolicy, Discard, Publish, Retention,
    StreamConfig, Wants, What,
};
use std::alloc::Global;

/// Thirty seconds.
const ACK_WAIT: u64 = 30_000_000_000;

/// The making of the stream `ORDERS`, of the subjects `orders.*`.
pub fn stream(alloc: Global, retention: Retention) -> Result<What, NoMemory>
    ensures asked { IfOk result IsAsked }
{
    let mut subjects = List::new(alloc);
    subjects.push(Blob::of(alloc, b"orders.*")?)?;
    Ok(What::Make {
        reply: None,
        config: StreamConfig {
            description: Blob::empty(),
            discard: Discard::Old,
            duplicate_window: 120_000_000_000,
            max_age: 0,
            max_bytes: None,
            max_consumers: None,
            max_msg_size: None,
            max_msgs: None,
            max_msgs_per_subject: None,
            name: Blob::of(alloc, b"ORDERS")?,
            retention,
            subjects,
        },
    })
}

/// The making of a pull consumer with explicit acknowledgements, which gets each message at most so often and has at most so many pending, if there
/// are such limits.
pub fn consumer(
    alloc: Global,
    name: &[u8],
    max_deliver: Option<u64>,
    max_ack_pending: Option<u64>,
) -> Result<What, NoMemory>
    requires name { IsTrue (is_name name.now) }
    requires often { IsTrue (is_limit (2 ^ 62 - 1) max_deliver) }
    requires pending { IsTrue (is_limit 65536 max_ack_pending) }
    ensures asked { IfOk result IsAsked }
{
    Ok(What::MakeConsumer {
        reply: None,
        name: Blob::of(alloc, name)?,
        config: ConsumerConfig {
            ack_policy: AckPolicy::Explicit,
            ack_wait: ACK_WAIT,
            deliver_group: Blob::empty(),
            deliver_policy: DeliverPolicy::All,
            deliver_subject: Blob::empty(),
            description: Blob::empty(),
            filter_subject: Blob::empty(),
            idle_heartbeat: 0,
            max_ack_pending,
            max_deliver,
            max_waiting: 512,
            name: Blob::of(alloc, name)?,
        },
        update: false,
    })
}

/// A message for `orders.a`.
pub fn publish(alloc: Global, payload: &[u8]) -> Result<What, NoMemory>
    requires small { length payload.now ≤ 100 }
    ensures asked { IfOk result IsAsked }
{
    Ok(What::Publish(Publish {
        reply: None,
        subject: Blob::of(alloc, b"orders.a")?,
        headers: Blob::empty(),
        payload: Blob::of(alloc, payload)?,
        wants: Wants {
            bad: None,
            id: Blob::empty(),
            stream: None,
            last: None,
            subject_last: None,
            last_id: None,
        },
    }))
}

/// A pull with the reply subject `_P`.
pub fn pull(alloc: Global, name: &[u8], ask: Ask) -> Result<What, NoMemory>
    requires name { IsTrue (is_name name.now) }
    requires ask { IsTrue (is_proper_ask ask) }
    ensures asked { IfOk result IsAsked }
{
    Ok(What::Pull {
        reply: Some(Blob::of(alloc, b"_P")?),
        consumer: Blob::of(alloc, name)?,
        ask: Some(ask),
    })
}

/// An acknowledgement of a sequence, whose confirmation nobody asks for.
pub fn ack(alloc: Global, name: &[u8], seq: u64, kind: AckKind) -> Result<What, NoMemory>
    requires name { IsTrue (is_name name.now) }
    requires seq { IsTrue (is_number seq) }
    requires kind { IsTrue (is_proper_kind kind) }
    ensures asked { IfOk result IsAsked }
{
    Ok(What::Ack {
        reply: None,
        ack: Ack {
            stream: Blob::of(alloc, b"ORDERS")?,
            consumer: Blob::of(alloc, name)?,
            seq,
            kind,
        },
    })
}

/// The information of a consumer.
pub fn info(alloc: Global, name: &[u8]) -> Result<What, NoMemory>
    requires name { IsTrue (is_name name.now) }
    ensures asked { IfOk result IsAsked }
{
    Ok(What::ConsumerInfo {
        reply: None,
        name: Blob::of(alloc, name)?,
    })
}

/// The information of the stream.
pub fn stream_info() -> What
    ensures asked { IsAsked result }
{
    What::StreamInfo { reply: None }
}
