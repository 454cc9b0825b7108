//! What a volume holds, as a text.

use crate::line::LineFault;
use effects::{Body, Durable};
use js_base::Blob;
use js_model::{Consumer, Id, Message};
use std::alloc::Global;

/// A text that is printed as it is. Other bytes are not.
fn shown(bytes: &Blob) -> &str {
    str::from_utf8(bytes.as_slice()).unwrap_or("?")
}

fn message_text(alloc: Global, message: &Message) -> Result<String, LineFault> {
    Ok(format!(in alloc;
        "; message {} {} at {}, {} and {} bytes",
        message.seq,
        shown(&message.subject),
        message.at.as_nanos(),
        message.headers.len(),
        message.payload.len()
    )?)
}

fn id_text(alloc: Global, id: &Id) -> Result<String, LineFault> {
    Ok(format!(in alloc;
        "; id {} of {} at {}",
        shown(&id.id),
        id.seq,
        id.at.as_nanos()
    )?)
}

/// The consumer with each pick, each delivery that waits and each that was given up.
fn consumer_text(alloc: Global, consumer: &Consumer) -> Result<String, LineFault> {
    let mut text = format!(in alloc;
        "; consumer {} made {}, cursor {}, sent {}",
        shown(&consumer.name),
        consumer.made.as_nanos(),
        consumer.cursor,
        consumer.dseq
    )?;
    for pick in consumer.picks.as_slice() {
        text.push_str(format!(in alloc; ", pick {pick}")?.as_str())?;
    }
    for pending in consumer.pending.as_slice() {
        let due = pending.due.as_nanos();
        let entry = format!(in alloc; ", pending {} x {} due {due}", pending.seq, pending.count)?;
        text.push_str(entry.as_str())?;
    }
    for seq in consumer.given_up.as_slice() {
        text.push_str(format!(in alloc; ", given up {seq}")?.as_str())?;
    }
    Ok(text)
}

/// The stream with its messages, ids and consumers.
fn stream_text(alloc: Global, incarnation: u64, body: &Body) -> Result<String, LineFault> {
    let mut text = format!(in alloc;
        "stream {incarnation} {} made {}, seen {}, last {}",
        shown(&body.config.name),
        body.made.as_nanos(),
        body.moment.as_nanos(),
        body.last
    )?;
    for message in body.messages.as_slice() {
        text.push_str(message_text(alloc, message)?.as_str())?;
    }
    for id in body.ids.as_slice() {
        text.push_str(id_text(alloc, id)?.as_str())?;
    }
    for consumer in body.consumers.as_slice() {
        text.push_str(consumer_text(alloc, consumer)?.as_str())?;
    }
    Ok(text)
}

/// What a volume holds.
pub(crate) fn held_text(alloc: Global, durable: &Durable) -> Result<String, LineFault> {
    match &durable.body {
        Some(body) => stream_text(alloc, durable.incarnation, body),
        None => Ok(format!(in alloc; "vacant {}", durable.incarnation)?),
    }
}
