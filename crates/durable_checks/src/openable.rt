//! What is asked at the end of all batches.

ghost use Rattle.std.specs.Prelude.{◌↔◌, IfOk, IsTrue};
ghost use Rattle.effects.specs.Folding.{live};
ghost use Rattle.durable_checks.specs.Storable.{IsFormed, IsFormedBody, IsOpenable, IsStorable};

use crate::keeping::are_kept;
use crate::limits::are_within;
use crate::matching::are_all_matched;
use crate::times::{ids_rise, messages_rise};
use effects::{Body, Durable};
use js_base::NoMemory;
use std::alloc::Global;

/// Whether a stream can be opened.
fn is_openable_body(alloc: Global, incarnation: u64, body: &Body) -> Result<bool, NoMemory>
    requires formed { IsFormedBody body.now }
    requires storable { IsStorable (live incarnation body.now) }
    ensures value { IfOk result (λ openable. IsTrue openable ↔ IsOpenable (live incarnation body.now)) }
{
    let messages = body.messages.as_slice();
    let consumers = body.consumers.as_slice();
    if !are_all_matched(alloc, messages, consumers)? {
        return Ok(false);
    }
    if !messages_rise(alloc, messages, body.moment)? {
        return Ok(false);
    }
    if !ids_rise(alloc, body.ids.as_slice(), body.moment)? {
        return Ok(false);
    }
    if !are_within(alloc, &body.config, messages)? {
        return Ok(false);
    }
    Ok(are_kept(body.config.retention, consumers, messages))
}

/// Whether what a volume holds can be opened: the filters of its consumers match what they should, the moments of its messages and ids do not fall and
/// are none after its own, and neither its limits nor its retention drop a message. It is storable; its configurations are such as their readers give, and
/// its consumers stand in order of their names.
///
/// It costs a search for each message and consumer.
pub fn is_openable(alloc: Global, durable: &Durable) -> Result<bool, NoMemory>
    requires formed { IsFormed durable.now }
    requires storable { IsStorable durable.now }
    ensures value { IfOk result (λ openable. IsTrue openable ↔ IsOpenable durable.now) }
{
    match &durable.body {
        Some(body) => is_openable_body(alloc, durable.incarnation, body),
        None => Ok(true),
    }
}
