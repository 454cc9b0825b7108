//! Bounds of snapshots, by the texts of configurations.

ghost use Rattle.std.specs.Prelude.{◌≡◌, ◌+◌, ◌*◌, length, IfOk, IsTrue};
ghost use Rattle.config_texts.specs.Texts.{consumer_text, stream_text};
ghost use Rattle.js_model.specs.Configs.{is_consumer_config, is_stream_config};
ghost use Rattle.snapshot_bound.specs.Asking.{most_picked};
ghost use Rattle.snapshot_bound.specs.Bounds.{capped, most_held};

use crate::counts::most_held;
use config_texts::{consumer_text, stream_text};
use js_base::NoMemory;
use js_model::{ConsumerConfig, DeliverPolicy, StreamConfig};
use std::alloc::Global;

/// How many bytes the configuration of a stream has in a snapshot. Its cost grows with its length.
pub fn stream_length(alloc: Global, config: &StreamConfig) -> Result<u64, NoMemory>
    requires valid { IsTrue (is_stream_config config.now) }
    ensures value { IfOk result (λ count. count ≡ length (stream_text config.now)) }
{
    let text = stream_text(alloc, config)?;
    Ok(text.len() as u64)
}

/// How many bytes a consumer has in a snapshot whatever it holds, if so many messages are picked out for it; 2^64 - 1 if they are more.
pub fn consumer_fixed(
    alloc: Global,
    name: &[u8],
    config: &ConsumerConfig,
    picks: u64,
) -> Result<u64, NoMemory>
    requires valid { IsTrue (is_consumer_config config.now) }
    ensures value { IfOk result (λ count. count ≡ capped (41 + length name.now + length (consumer_text config.now) + 8 * picks)) }
{
    let text = consumer_text(alloc, config)?;
    Ok(
        41_u64
            .saturating_add(name.len() as u64)
            .saturating_add(text.len() as u64)
            .saturating_add(picks.saturating_mul(8)),
    )
}

/// How many messages may be picked out for a new consumer at most, where there are so many.
pub fn most_picked(policy: &DeliverPolicy, messages: u64) -> u64
    ensures value { result ≡ most_picked policy.now messages }
{
    match policy {
        DeliverPolicy::LastPerSubject => most_held(messages),
        DeliverPolicy::All
        | DeliverPolicy::Last
        | DeliverPolicy::New
        | DeliverPolicy::ByStartSequence(_)
        | DeliverPolicy::ByStartTime(_) => 0,
    }
}

/// By how many bytes a new consumer may raise the part of a bound that counts tell, where there are so many messages.
pub fn consumer_counted(messages: u64) -> u64
    ensures value { result ≡ 32 * most_held messages }
{
    32 * most_held(messages)
}
