//! Configurations as they are printed.

ghost use Rattle.std.specs.Prelude.{◌≡◌, IfOk, OnOk, IsUtf8};
ghost use Rattle.serde_json.specs.Data.{object};
ghost use Rattle.serde_json.specs.View.{view};
ghost use Rattle.js_json.specs.Building.{shown};
ghost use Rattle.consumer_config.specs.Printing.{ack_policy_text, deliver_policy_text, with_start, printed, IsPrinted};

use js_base::NoMemory;
use js_json::ObjectBuilder;
use js_model::{AckPolicy, ConsumerConfig, DeliverPolicy};
use serde_json::Value;
use std::alloc::Global;

/// The name of a policy of acknowledgement.
fn ack_policy_text(policy: AckPolicy) -> &'static [u8]
    ensures value { result.now ≡ ack_policy_text policy }
    ensures utf8 { IsUtf8 result.now }
{
    match policy {
        AckPolicy::None => b"none",
        AckPolicy::All => b"all",
        AckPolicy::Explicit => b"explicit",
    }
}

/// The name of a policy of delivery.
fn deliver_policy_text(policy: DeliverPolicy) -> &'static [u8]
    ensures value { result.now ≡ deliver_policy_text policy }
    ensures utf8 { IsUtf8 result.now }
{
    match policy {
        DeliverPolicy::All => b"all",
        DeliverPolicy::Last => b"last",
        DeliverPolicy::New => b"new",
        DeliverPolicy::ByStartSequence(_) => b"by_start_sequence",
        DeliverPolicy::ByStartTime(_) => b"by_start_time",
        DeliverPolicy::LastPerSubject => b"last_per_subject",
    }
}

/// Adds the sequence or the time by which a consumer starts.
fn put_start(made: &mut ObjectBuilder, policy: DeliverPolicy) -> Result<(), NoMemory>
    ensures ok { OnOk result (shown made.new ≡ with_start policy (shown made.old)) }
{
    match policy {
        DeliverPolicy::ByStartSequence(seq) => made.number("opt_start_seq", seq),
        DeliverPolicy::ByStartTime(at) => made.time("opt_start_time", at),
        DeliverPolicy::All
        | DeliverPolicy::Last
        | DeliverPolicy::New
        | DeliverPolicy::LastPerSubject => Ok(()),
    }
}

/// The configuration's object, with its keys in ascending order. No limit is -1. An empty text, a heartbeat of 0 and a start that the policy does
/// not use are not there.
pub fn print(alloc: Global, config: &ConsumerConfig) -> Result<Value, NoMemory>
    requires utf8 { IsPrinted config.now }
    ensures printed { IfOk result (λ value. view value ≡ object (printed config.now)) }
{
    let mut made = ObjectBuilder::new(alloc);
    made.text("ack_policy", ack_policy_text(config.ack_policy))?;
    made.number("ack_wait", config.ack_wait)?;
    made.text_unless_empty("deliver_group", config.deliver_group.as_slice())?;
    made.text("deliver_policy", deliver_policy_text(config.deliver_policy))?;
    made.text_unless_empty("deliver_subject", config.deliver_subject.as_slice())?;
    made.text_unless_empty("description", config.description.as_slice())?;
    made.text("durable_name", config.name.as_slice())?;
    made.text_unless_empty("filter_subject", config.filter_subject.as_slice())?;
    made.number_unless_0("idle_heartbeat", config.idle_heartbeat)?;
    made.limit("max_ack_pending", config.max_ack_pending)?;
    made.limit("max_deliver", config.max_deliver)?;
    made.number("max_waiting", config.max_waiting)?;
    made.text("name", config.name.as_slice())?;
    put_start(&mut made, config.deliver_policy)?;
    made.text("replay_policy", b"instant")?;
    Ok(made.into_value())
}
