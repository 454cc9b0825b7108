//! Configurations as they are read.

ghost use Rattle.std.specs.Prelude.{◌≡◌, Some, IfOk, IsTrue, codes};
ghost use Rattle.js_json.specs.Members.{members};
ghost use Rattle.js_json.specs.Fields.{number_in};
ghost use Rattle.js_json.specs.Kinds.{FitsWord};
ghost use Rattle.js_model.specs.Configs.{is_consumer_config};
ghost use Rattle.consumer_config.specs.Reading.{or_usual, pending_of, limit_of, ack_policy_of, from_time, deliver_policy_of, deliver_policy_in, found, word_in, config_in, reading};
ghost use Rattle.consumer_config.specs.Answers.{ReadsConfig};
ghost use Rattle.consumer_config.specs.Printing.{IsPrinted};

use crate::fault::ConfigFault;
use crate::judging::{check_fields, check_names, check_start};
use crate::lookup::{moment, natural, word};
use js_base::{Moment, Name, NoMemory};
use js_json::Fields;
use js_model::{AckPolicy, ConsumerConfig, DeliverPolicy};
use std::alloc::Global;

/// For how many nanoseconds a delivery usually waits: 30 seconds.
const USUAL_ACK_WAIT: u64 = 30_000_000_000;

/// How many deliveries may usually wait.
const USUAL_PENDING: u64 = 1000;

/// How many pulls may usually wait.
const USUAL_WAITING: u64 = 512;

/// The number, or the usual one for 0.
fn or_usual(usual: u64, number: u64) -> u64
    ensures value { result ≡ or_usual usual number }
{
    if number == 0 { usual } else { number }
}

/// How many deliveries may wait by this number: below 0 the consumer has no limit of its own.
fn pending(number: i128) -> Option<u64>
    requires range { FitsWord number }
    ensures value { result ≡ pending_of (Some number) }
{
    if number < 0 {
        None
    } else {
        Some(or_usual(USUAL_PENDING, u64::try_from(number).unwrap_or(0)))
    }
}

/// How many deliveries may wait.
fn pending_in(fields: &Fields) -> Option<u64>
    ensures value { result ≡ pending_of (found (number_in (codes "max_ack_pending") (members fields.now))) }
{
    match fields.number("max_ack_pending") {
        Ok(Some(number)) => pending(number),
        _ => Some(USUAL_PENDING),
    }
}

/// The limit, which is none for 0.
fn limit(number: u64) -> Option<u64>
    ensures value { result ≡ limit_of number }
{
    if number == 0 { None } else { Some(number) }
}

/// The policy of acknowledgement with this name.
fn ack_policy(text: &[u8]) -> AckPolicy
    ensures value { result ≡ ack_policy_of text.now }
{
    if text == b"none".as_slice() {
        AckPolicy::None
    } else if text == b"all".as_slice() {
        AckPolicy::All
    } else {
        AckPolicy::Explicit
    }
}

/// The policy of acknowledgement that the fields say.
fn ack_policy_in(fields: &Fields) -> Result<AckPolicy, NoMemory>
    ensures value { IfOk result (λ policy. policy ≡ ack_policy_of (word_in (codes "ack_policy") (members fields.now))) }
{
    let text = word(fields, "ack_policy")?;
    Ok(ack_policy(text.as_slice()))
}

/// Where a consumer starts by time.
fn from_time(at: Option<Moment>) -> DeliverPolicy
    ensures value { result ≡ from_time at }
{
    match at {
        Some(at) => DeliverPolicy::ByStartTime(at),
        None => DeliverPolicy::All,
    }
}

/// The policy of delivery with this name, and with this sequence or this time.
fn deliver_policy(text: &[u8], seq: u64, at: Option<Moment>) -> DeliverPolicy
    ensures value { result ≡ deliver_policy_of text.now seq at }
{
    if text == b"last".as_slice() {
        DeliverPolicy::Last
    } else if text == b"new".as_slice() {
        DeliverPolicy::New
    } else if text == b"by_start_sequence".as_slice() {
        DeliverPolicy::ByStartSequence(seq)
    } else if text == b"by_start_time".as_slice() {
        from_time(at)
    } else if text == b"last_per_subject".as_slice() {
        DeliverPolicy::LastPerSubject
    } else {
        DeliverPolicy::All
    }
}

/// The policy of delivery that the fields say.
fn deliver_policy_in(fields: &Fields) -> Result<DeliverPolicy, NoMemory>
    ensures value { IfOk result (λ policy. policy ≡ deliver_policy_in (members fields.now)) }
{
    let text = word(fields, "deliver_policy")?;
    let seq = natural(fields, "opt_start_seq");
    let at = moment(fields, "opt_start_time");
    Ok(deliver_policy(text.as_slice(), seq, at))
}

/// The configuration that fields without a fault say.
#[tactic(auto, unfolding(crate::specs::Reading::config_in))]
fn config(fields: &Fields, name: &Name) -> Result<ConsumerConfig, NoMemory>
    ensures value { IfOk result (λ config. config ≡ config_in name.now (members fields.now)) }
{
    Ok(ConsumerConfig {
        ack_policy: ack_policy_in(fields)?,
        ack_wait: or_usual(USUAL_ACK_WAIT, natural(fields, "ack_wait")),
        deliver_group: word(fields, "deliver_group")?,
        deliver_policy: deliver_policy_in(fields)?,
        deliver_subject: word(fields, "deliver_subject")?,
        description: word(fields, "description")?,
        filter_subject: word(fields, "filter_subject")?,
        idle_heartbeat: natural(fields, "idle_heartbeat"),
        max_ack_pending: pending_in(fields),
        max_deliver: limit(natural(fields, "max_deliver")),
        max_waiting: or_usual(USUAL_WAITING, natural(fields, "max_waiting")),
        name: name.as_blob().clone()?,
    })
}

/// The configuration of the consumer with this name that the fields say. Null and absent fields have their defaults, and unknown ones are read
/// past.
///
/// The fields are looked at in ascending order of their names. The first that has a wrong type or is out of its range is refused with 20001, and
/// one that asks for what the server leaves out with 20002. A queue name and a heartbeat need a deliver subject: without one each is refused with
/// 20001; a deliver subject that is itself wrong is refused in their place. After all fields, a policy of delivery without the sequence or the time
/// that it needs is refused with 20003, a configuration without a durable name with 20005, and another name than the consumer's with 20022.
/// What is read is a valid configuration and can be printed.
#[tactic(auto, using(crate::proofs::Refusing::refused_field, crate::proofs::Refusing::refused_start, crate::proofs::Refusing::refused_name, crate::proofs::Refusing::read_whole))]
pub fn read(alloc: Global, fields: &Fields, name: &Name) -> Result<ConsumerConfig, ConfigFault>
    ensures reading { ReadsConfig result (reading name.now (members fields.now)) }
    ensures config { IfOk result (λ config. IsTrue (is_consumer_config config)) }
    ensures printable { IfOk result IsPrinted }
{
    match check_fields(alloc, fields) {
        Ok(()) => {}
        Err(fault) => return Err(fault),
    }
    match check_start(alloc, fields) {
        Ok(()) => {}
        Err(fault) => return Err(fault),
    }
    match check_names(alloc, fields, name.as_slice()) {
        Ok(()) => {}
        Err(fault) => return Err(fault),
    }
    match config(fields, name) {
        Ok(config) => Ok(config),
        Err(_) => Err(ConfigFault::NoMemory),
    }
}
