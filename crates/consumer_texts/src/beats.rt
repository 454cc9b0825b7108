//! What passing time sends: timeouts and heartbeats.

ghost use Rattle.std.specs.Prelude.{◌≡◌, codes, IfOk};
ghost use Rattle.js_base.specs.Status.{status};
ghost use Rattle.js_model.specs.Advance.{status_out, timeout, pull_beat};
ghost use Rattle.consumer_texts.specs.Beats.{last_fields};

use crate::status::{left_fields, status_out};
use js_base::{Blob, NoMemory, Out};
use js_model::Pull;
use nats_headers::write_status;
use std::alloc::Global;

/// Tells a pull that it has ended, and what it is still owed.
pub fn timeout(alloc: Global, pull: &Pull) -> Result<Out, NoMemory>
    ensures value { IfOk result (λ out. out ≡ timeout pull.now) }
{
    let left = left_fields(alloc, pull)?;
    let block = write_status(alloc, 408, b"Request Timeout", &left)?;
    status_out(&pull.reply, block)
}

/// A heartbeat to a pull.
pub fn pull_beat(alloc: Global, pull: &Pull) -> Result<Out, NoMemory>
    ensures value { IfOk result (λ out. out ≡ pull_beat pull.now) }
{
    let block = write_status(alloc, 100, b"Idle Heartbeat", &[])?;
    status_out(&pull.reply, block)
}

/// The last consumer sequence and the sequence before the cursor, as the fields of a status block.
fn last_fields(alloc: Global, dseq: u64, cursor: u64) -> Result<[(Blob, u64); 2], NoMemory>
    ensures value { IfOk result (λ fields. fields ≡ last_fields dseq cursor) }
{
    let consumer = Blob::of(alloc, b"Nats-Last-Consumer")?;
    let stream = Blob::of(alloc, b"Nats-Last-Stream")?;
    Ok([(consumer, dseq), (stream, cursor.saturating_sub(1))])
}

/// A push consumer's heartbeat to its deliver subject: it tells the last consumer sequence and the sequence before the cursor.
pub fn push_beat(alloc: Global, to: &Blob, dseq: u64, cursor: u64) -> Result<Out, NoMemory>
    ensures value { IfOk result (λ out. out ≡ status_out to.now (status 100 (codes "Idle Heartbeat") (last_fields dseq cursor))) }
{
    let last = last_fields(alloc, dseq, cursor)?;
    let block = write_status(alloc, 100, b"Idle Heartbeat", &last)?;
    status_out(to, block)
}
