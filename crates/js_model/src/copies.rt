//! Copies of messages and configurations. Their texts are shared.

ghost use Rattle.std.specs.Prelude.{◌≡◌, IfOk};

use crate::consumer_config::ConsumerConfig;
use crate::stream::Message;
use crate::stream_config::StreamConfig;
use js_base::{Blob, List, NoMemory};
use std::alloc::Global;

/// A copy of the message.
pub fn copy_message(message: &Message) -> Result<Message, NoMemory>
    ensures copy { IfOk result (λ copy. copy ≡ message.now) }
{
    Ok(Message {
        seq: message.seq,
        at: message.at,
        subject: message.subject.clone()?,
        headers: message.headers.clone()?,
        payload: message.payload.clone()?,
    })
}

/// Copies of the messages, in their order.
pub fn copy_messages(alloc: Global, messages: &[Message]) -> Result<Vec<Message>, NoMemory>
    ensures copies { IfOk result (λ copies. copies.items ≡ messages.now) }
{
    let mut copies = Vec::new(alloc);
    for message in messages {
        copies.push(copy_message(message)?)?;
    }
    Ok(copies)
}

/// A copy of a list of texts.
pub fn copy_texts(alloc: Global, texts: &[Blob]) -> Result<List<Blob>, NoMemory>
    ensures copy { IfOk result (λ copy. copy ≡ texts.now) }
{
    Ok(List::from_vec(texts.to_vec(alloc)?))
}

/// A copy of a stream's configuration.
pub fn copy_stream_config(alloc: Global, config: &StreamConfig) -> Result<StreamConfig, NoMemory>
    ensures copy { IfOk result (λ copy. copy ≡ config.now) }
{
    Ok(StreamConfig {
        description: config.description.clone()?,
        discard: config.discard,
        duplicate_window: config.duplicate_window,
        max_age: config.max_age,
        max_bytes: config.max_bytes,
        max_consumers: config.max_consumers,
        max_msg_size: config.max_msg_size,
        max_msgs: config.max_msgs,
        max_msgs_per_subject: config.max_msgs_per_subject,
        name: config.name.clone()?,
        retention: config.retention,
        subjects: copy_texts(alloc, config.subjects.as_slice())?,
    })
}

/// A copy of a consumer's configuration.
pub fn copy_consumer_config(config: &ConsumerConfig) -> Result<ConsumerConfig, NoMemory>
    ensures copy { IfOk result (λ copy. copy ≡ config.now) }
{
    Ok(ConsumerConfig {
        ack_policy: config.ack_policy,
        ack_wait: config.ack_wait,
        deliver_group: config.deliver_group.clone()?,
        deliver_policy: config.deliver_policy,
        deliver_subject: config.deliver_subject.clone()?,
        description: config.description.clone()?,
        filter_subject: config.filter_subject.clone()?,
        idle_heartbeat: config.idle_heartbeat,
        max_ack_pending: config.max_ack_pending,
        max_deliver: config.max_deliver,
        max_waiting: config.max_waiting,
        name: config.name.clone()?,
    })
}
