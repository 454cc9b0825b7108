//! Whether two configurations are the same.

ghost use Rattle.std.specs.Prelude.{◌≡◌};
ghost use Rattle.js_base.specs.Bytes.{same};
ghost use Rattle.js_model.specs.Configs.{same_number, same_texts, same_retention, same_discard, same_stream_config, same_ack_policy, same_deliver_policy, same_consumer_config};

use js_base::Blob;
use js_model::{AckPolicy, ConsumerConfig, DeliverPolicy, Discard, Retention, StreamConfig};

fn same(text: &Blob, other: &Blob) -> bool
    ensures value { result ≡ same text.now other.now }
{
    text.as_slice() == other.as_slice()
}

fn same_number(number: Option<u64>, other: Option<u64>) -> bool
    ensures value { result ≡ same_number number other }
{
    match (number, other) {
        (None, None) => true,
        (Some(number), Some(other)) => number == other,
        _ => false,
    }
}

fn same_texts(texts: &[Blob], others: &[Blob]) -> bool
    ensures value { result ≡ same_texts texts.now others.now }
{
    let mut texts = texts;
    let mut others = others;
    while let Some((text, more)) = texts.split_first() {
        let Some((other, rest)) = others.split_first() else {
            return false;
        };
        if !same(text, other) {
            return false;
        }
        texts = more;
        others = rest;
    }
    others.is_empty()
}

/// Whether the two are the same.
pub fn same_retention(policy: Retention, other: Retention) -> bool
    ensures value { result ≡ same_retention policy other }
{
    match (policy, other) {
        (Retention::Limits, Retention::Limits) => true,
        (Retention::Interest, Retention::Interest) => true,
        (Retention::WorkQueue, Retention::WorkQueue) => true,
        _ => false,
    }
}

fn same_discard(policy: Discard, other: Discard) -> bool
    ensures value { result ≡ same_discard policy other }
{
    match (policy, other) {
        (Discard::Old, Discard::Old) => true,
        (Discard::New, Discard::New) => true,
        _ => false,
    }
}

/// Whether the two are the same, field by field.
pub fn same_stream_config(config: &StreamConfig, other: &StreamConfig) -> bool
    ensures value { result ≡ same_stream_config config.now other.now }
{
    same(&config.name, &other.name)
        && same(&config.description, &other.description)
        && same_texts(config.subjects.as_slice(), other.subjects.as_slice())
        && same_retention(config.retention, other.retention)
        && same_discard(config.discard, other.discard)
        && same_number(config.max_msgs, other.max_msgs)
        && same_number(config.max_bytes, other.max_bytes)
        && same_number(config.max_msgs_per_subject, other.max_msgs_per_subject)
        && same_number(config.max_msg_size, other.max_msg_size)
        && same_number(config.max_consumers, other.max_consumers)
        && config.max_age == other.max_age
        && config.duplicate_window == other.duplicate_window
}

fn same_ack_policy(policy: AckPolicy, other: AckPolicy) -> bool
    ensures value { result ≡ same_ack_policy policy other }
{
    match (policy, other) {
        (AckPolicy::None, AckPolicy::None) => true,
        (AckPolicy::All, AckPolicy::All) => true,
        (AckPolicy::Explicit, AckPolicy::Explicit) => true,
        _ => false,
    }
}

fn same_deliver_policy(policy: &DeliverPolicy, other: &DeliverPolicy) -> bool
    ensures value { result ≡ same_deliver_policy policy.now other.now }
{
    match policy {
        DeliverPolicy::All => matches!(other, DeliverPolicy::All),
        DeliverPolicy::Last => matches!(other, DeliverPolicy::Last),
        DeliverPolicy::New => matches!(other, DeliverPolicy::New),
        DeliverPolicy::ByStartSequence(seq) => {
            matches!(other, DeliverPolicy::ByStartSequence(start) if *start == *seq)
        }
        DeliverPolicy::ByStartTime(at) => {
            matches!(other, DeliverPolicy::ByStartTime(start) if *start == *at)
        }
        DeliverPolicy::LastPerSubject => matches!(other, DeliverPolicy::LastPerSubject),
    }
}

/// Whether the two are the same, field by field.
pub fn same_consumer_config(config: &ConsumerConfig, other: &ConsumerConfig) -> bool
    ensures value { result ≡ same_consumer_config config.now other.now }
{
    same(&config.name, &other.name)
        && same(&config.description, &other.description)
        && same_deliver_policy(&config.deliver_policy, &other.deliver_policy)
        && same_ack_policy(config.ack_policy, other.ack_policy)
        && config.ack_wait == other.ack_wait
        && same_number(config.max_deliver, other.max_deliver)
        && same_number(config.max_ack_pending, other.max_ack_pending)
        && config.max_waiting == other.max_waiting
        && same(&config.filter_subject, &other.filter_subject)
        && same(&config.deliver_subject, &other.deliver_subject)
        && same(&config.deliver_group, &other.deliver_group)
        && config.idle_heartbeat == other.idle_heartbeat
}
