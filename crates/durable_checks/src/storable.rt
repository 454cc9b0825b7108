//! What is asked at the end of each batch of records.

ghost use Rattle.std.specs.Prelude.{◌↔◌, IfOk, IsTrue};
ghost use Rattle.effects.specs.Folding.{live};
ghost use Rattle.durable_checks.specs.Storable.{IsFormed, IsFormedBody, IsStorable};

use crate::bounds::{is_bounded, is_number};
use crate::consumers::are_sound;
use crate::ids::are_different;
use crate::sequences::{ascend, seqs_of};
use effects::{Body, Durable};
use js_base::NoMemory;
use std::alloc::Global;

/// Whether a stream is sound as it is stored, and within the bounds of a volume.
fn is_storable_body(alloc: Global, incarnation: u64, body: &Body) -> Result<bool, NoMemory>
    requires formed { IsFormedBody body.now }
    ensures value { IfOk result (λ storable. IsTrue storable ↔ IsStorable (live incarnation body.now)) }
{
    if !is_bounded(incarnation, body) {
        return Ok(false);
    }
    let stored = seqs_of(alloc, body.messages.as_slice())?;
    if !ascend(stored.as_slice(), body.last + 1) {
        return Ok(false);
    }
    if !are_different(alloc, body.ids.as_slice())? {
        return Ok(false);
    }
    are_sound(
        alloc,
        stored.as_slice(),
        body.last,
        body.consumers.as_slice(),
    )
}

/// Whether what a volume holds is sound as it is stored, and within the bounds of a volume: so many messages, ids, consumers and sequences, ids of so
/// many bytes, and numbers below 2^62. Its configurations are such as their readers give, and its consumers stand in order of their names.
///
/// It takes memory for the sequences of the messages and for the ids, and costs a search for each sequence that a consumer holds.
pub fn is_storable(alloc: Global, durable: &Durable) -> Result<bool, NoMemory>
    requires formed { IsFormed durable.now }
    ensures value { IfOk result (λ storable. IsTrue storable ↔ IsStorable durable.now) }
{
    match &durable.body {
        Some(body) => is_storable_body(alloc, durable.incarnation, body),
        None => Ok(is_number(durable.incarnation)),
    }
}
