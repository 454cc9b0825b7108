//! The bound of the snapshot of what outlives a crash.

ghost use Rattle.std.specs.Prelude.{◌≡◌, Some, sum_by, All, IfOk};
ghost use Rattle.durable_checks.specs.Storable.{IsConfigured, IsFormed, IsFormedBody};
ghost use Rattle.snapshot_bound.specs.Bounds.{body_fixed, bound, capped, consumer_fixed, counted, counted_in, fixed, id_length};

use crate::counts::most_held;
use crate::texts::{consumer_fixed, stream_length};
use effects::{Body, Durable};
use js_base::NoMemory;
use js_model::{Consumer, Id};
use std::alloc::Global;

/// The part of its bound that no count tells, in bytes: the configurations of a stream and its consumers, and what is picked out for these; 2^64 - 1 if that is
/// more. It goes through the consumers.
pub fn fixed_of(alloc: Global, durable: &Durable) -> Result<u64, NoMemory>
    requires formed { IsFormed durable.now }
    ensures value { IfOk result (λ count. count ≡ capped (fixed durable.now)) }
{
    match &durable.body {
        Some(body) => fixed_in(alloc, body),
        None => Ok(0),
    }
}

/// What its snapshot comes to at most, in bytes; 2^64 - 1 if that is more. It goes through the ids and the consumers.
pub fn held_bound(alloc: Global, durable: &Durable) -> Result<u64, NoMemory>
    requires formed { IsFormed durable.now }
    ensures value { IfOk result (λ count. count ≡ capped (bound durable.now)) }
{
    let fixed = fixed_of(alloc, durable)?;
    Ok(fixed.saturating_add(counted_of(durable)))
}

/// The part that counts tell.
fn counted_of(durable: &Durable) -> u64
    ensures value { result ≡ capped (counted durable.now) }
{
    match &durable.body {
        Some(body) => counted_in(body),
        None => 39,
    }
}

/// The configuration of a stream, and its consumers.
fn fixed_in(alloc: Global, body: &Body) -> Result<u64, NoMemory>
    requires formed { IsFormedBody body.now }
    ensures value { IfOk result (λ count. count ≡ capped (body_fixed body.now)) }
{
    let stream = stream_length(alloc, &body.config)?;
    let consumers = consumers_fixed(alloc, body.consumers.as_slice())?;
    Ok(stream.saturating_add(consumers))
}

/// The consumers, with what is picked out for them.
fn consumers_fixed(alloc: Global, consumers: &[Consumer]) -> Result<u64, NoMemory>
    requires valid { All IsConfigured consumers.now }
    ensures value { IfOk result (λ count. count ≡ capped (sum_by consumer_fixed consumers.now)) }
{
    let mut sum: u64 = 0;
    for consumer in consumers {
        sum = sum.saturating_add(fixed_for(alloc, consumer)?);
    }
    Ok(sum)
}

/// A consumer, with what is picked out for it.
fn fixed_for(alloc: Global, consumer: &Consumer) -> Result<u64, NoMemory>
    requires valid { IsConfigured consumer.now }
    ensures value { IfOk result (λ count. count ≡ capped (consumer_fixed consumer.now)) }
{
    consumer_fixed(
        alloc,
        consumer.name.as_slice(),
        &consumer.config,
        consumer.picks.len() as u64,
    )
}

/// The part that counts tell, of a stream.
fn counted_in(body: &Body) -> u64
    ensures value { result ≡ capped (counted_in (Some body.now)) }
{
    let messages = body.messages.len() as u64;
    let held = (body.consumers.len() as u64).saturating_mul(32 * most_held(messages));
    ids_bytes(body.ids.as_slice())
        .saturating_add(93)
        .saturating_add(messages.saturating_mul(32))
        .saturating_add(held)
}

/// How long the ids are in a snapshot.
fn ids_bytes(ids: &[Id]) -> u64
    ensures value { result ≡ capped (sum_by id_length ids.now) }
{
    let mut sum: u64 = 0;
    for id in ids {
        sum = sum.saturating_add(18).saturating_add(id.id.len() as u64);
    }
    sum
}
