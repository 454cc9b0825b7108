//! Configurations as they are read.

ghost use Rattle.std.specs.Prelude.{◌≡◌, None, codes, IfOk, IsTrue};
ghost use Rattle.js_json.specs.Members.{members};
ghost use Rattle.js_json.specs.Fields.{texts_in};
ghost use Rattle.js_model.specs.Configs.{is_stream_config};
ghost use Rattle.stream_config.specs.Reading.{limit_in, retention_of, discard_of, window_of, subjects_or, found, word_in, config_in, reading};
ghost use Rattle.stream_config.specs.Answers.{ReadsConfig};
ghost use Rattle.stream_config.specs.Printing.{IsPrinted};

use crate::fault::ConfigFault;
use crate::judging::{check_fields, check_name};
use crate::lookup::{natural, texts, word};
use js_base::{Blob, List, Name, NoMemory};
use js_json::Fields;
use js_model::{Discard, Retention, StreamConfig};
use std::alloc::Global;

/// The duplicate window of a stream whose messages stay longer, in nanoseconds: two minutes.
const USUAL_WINDOW: u64 = 120_000_000_000;

/// The limit in the field.
fn limit(fields: &Fields, name: &str) -> Option<u64>
    ensures value { result ≡ limit_in name.now (members fields.now) }
{
    match natural(fields, name) {
        0 => None,
        limit => Some(limit),
    }
}

/// The retention policy with this name.
fn retention(text: &[u8]) -> Retention
    ensures value { result ≡ retention_of text.now }
{
    if text == b"interest".as_slice() {
        Retention::Interest
    } else if text == b"workqueue".as_slice() {
        Retention::WorkQueue
    } else {
        Retention::Limits
    }
}

/// The discard policy with this name.
fn discard(text: &[u8]) -> Discard
    ensures value { result ≡ discard_of text.now }
{
    if text == b"new".as_slice() {
        Discard::New
    } else {
        Discard::Old
    }
}

/// The duplicate window if it is asked for so, and messages stay that long.
fn window(max_age: u64, window: u64) -> u64
    ensures value { result ≡ window_of max_age window }
{
    if window != 0 {
        window
    } else if max_age > 0 && max_age < USUAL_WINDOW {
        max_age
    } else {
        USUAL_WINDOW
    }
}

/// The name alone.
fn name_alone(alloc: Global, name: &Name) -> Result<List<Blob>, NoMemory>
    ensures value { IfOk result (λ subjects. subjects ≡ subjects_or name.now None) }
{
    let mut subjects = List::new(alloc);
    subjects.push(name.as_blob().clone()?)?;
    Ok(subjects)
}

/// The subjects, or the name if there are none.
fn subjects(alloc: Global, fields: &Fields, name: &Name) -> Result<List<Blob>, NoMemory>
    ensures value { IfOk result (λ subjects. subjects ≡ subjects_or name.now (found (texts_in (codes "subjects") (members fields.now)))) }
{
    match texts(fields, "subjects")? {
        Some(subjects) if !subjects.is_empty() => Ok(subjects),
        _ => name_alone(alloc, name),
    }
}

/// The retention policy that the fields say.
fn retention_in(fields: &Fields) -> Result<Retention, NoMemory>
    ensures value { IfOk result (λ policy. policy ≡ retention_of (word_in (codes "retention") (members fields.now))) }
{
    let text = word(fields, "retention")?;
    Ok(retention(text.as_slice()))
}

/// The discard policy that the fields say.
fn discard_in(fields: &Fields) -> Result<Discard, NoMemory>
    ensures value { IfOk result (λ policy. policy ≡ discard_of (word_in (codes "discard") (members fields.now))) }
{
    let text = word(fields, "discard")?;
    Ok(discard(text.as_slice()))
}

/// The configuration that fields without a fault say.
#[tactic(auto, unfolding(crate::specs::Reading::config_in))]
fn config(alloc: Global, fields: &Fields, name: &Name) -> Result<StreamConfig, NoMemory>
    ensures value { IfOk result (λ config. config ≡ config_in name.now (members fields.now)) }
{
    let max_age = natural(fields, "max_age");
    Ok(StreamConfig {
        description: word(fields, "description")?,
        discard: discard_in(fields)?,
        duplicate_window: window(max_age, natural(fields, "duplicate_window")),
        max_age,
        max_bytes: limit(fields, "max_bytes"),
        max_consumers: limit(fields, "max_consumers"),
        max_msg_size: limit(fields, "max_msg_size"),
        max_msgs: limit(fields, "max_msgs"),
        max_msgs_per_subject: limit(fields, "max_msgs_per_subject"),
        name: name.as_blob().clone()?,
        retention: retention_in(fields)?,
        subjects: subjects(alloc, fields, name)?,
    })
}

/// The configuration of the stream with this name that the fields say. Null and absent fields have their defaults, and unknown ones are read past.
///
/// The fields are looked at in ascending order of their names. The first that has a wrong type or is out of its range is refused with 20001, and
/// one that asks for what the server leaves out with 20002. Another name than the stream's is refused with 20022, after all of them.
/// What is read is a valid configuration and can be printed.
#[tactic(auto, using(crate::proofs::Refusing::refused_field, crate::proofs::Refusing::refused_name, crate::proofs::Refusing::read_whole))]
pub fn read(alloc: Global, fields: &Fields, name: &Name) -> Result<StreamConfig, ConfigFault>
    ensures reading { ReadsConfig result (reading name.now (members fields.now)) }
    ensures config { IfOk result (λ config. IsTrue (is_stream_config config)) }
    ensures printable { IfOk result IsPrinted }
{
    match check_fields(alloc, fields) {
        Ok(()) => {}
        Err(fault) => return Err(fault),
    }
    match check_name(alloc, fields, name.as_slice()) {
        Ok(()) => {}
        Err(fault) => return Err(fault),
    }
    match config(alloc, fields, name) {
        Ok(config) => Ok(config),
        Err(_) => Err(ConfigFault::NoMemory),
    }
}
