//! The texts of consumers' configurations.

ghost use Rattle.std.specs.Prelude.{◌≡◌, option_and_then, IfOk, IfSome};
ghost use Rattle.js_json.specs.Members.{members};
ghost use Rattle.js_json.specs.Objects.{object_of};
ghost use Rattle.consumer_config.specs.Printing.{IsPrinted};
ghost use Rattle.config_texts.specs.Reading.{allowed, consumer_in, if_consumer_text, consumer_of};
ghost use Rattle.config_texts.specs.Texts.{consumer_text};

use crate::lookup::{fields_of, name_in};
use consumer_config::{ConfigFault, print, read};
use js_base::{Blob, NoMemory};
use js_json::Fields;
use js_model::ConsumerConfig;
use std::alloc::Global;

/// The text of the configuration.
#[tactic(auto, unfolding(crate::specs::Texts::consumer_text), using(crate::proofs::Floats::consumer_whole))]
pub fn consumer_text(alloc: Global, config: &ConsumerConfig) -> Result<Blob, NoMemory>
    requires utf8 { IsPrinted config.now }
    ensures text { IfOk result (λ text. text ≡ consumer_text config.now) }
{
    let text = print(alloc, config)?.to_string(alloc)?;
    Blob::of(alloc, text.as_bytes())
}

/// The configuration that the fields say, by the name among them.
#[tactic(auto, unfolding(crate::specs::Reading::consumer_in))]
fn consumer_in(alloc: Global, fields: &Fields) -> Result<Option<ConsumerConfig>, NoMemory>
    ensures value { IfOk result (λ config. config ≡ consumer_in (members fields.now)) }
    ensures printable { IfOk result (λ config. IfSome config IsPrinted) }
{
    let Some(name) = name_in(alloc, fields)? else {
        return Ok(None);
    };
    match read(alloc, fields, &name) {
        Ok(config) => Ok(Some(config)),
        Err(ConfigFault::Refused(_)) => Ok(None),
        Err(ConfigFault::NoMemory) => Err(NoMemory),
    }
}

/// The configuration, if it has this text.
fn if_consumer_text(
    alloc: Global,
    text: &[u8],
    config: ConsumerConfig,
) -> Result<Option<ConsumerConfig>, NoMemory>
    requires utf8 { IsPrinted config }
    ensures value { IfOk result (λ same. same ≡ if_consumer_text text.now config) }
{
    let own = consumer_text(alloc, &config)?;
    if own.as_slice() == text {
        Ok(Some(config))
    } else {
        Ok(None)
    }
}

/// The configuration that the object in the text says.
fn said(alloc: Global, text: &[u8]) -> Result<Option<ConsumerConfig>, NoMemory>
    ensures value { IfOk result (λ config. config ≡ option_and_then consumer_in (allowed (object_of text.now))) }
    ensures printable { IfOk result (λ config. IfSome config IsPrinted) }
{
    match fields_of(alloc, text)? {
        Some(fields) => consumer_in(alloc, &fields),
        None => Ok(None),
    }
}

/// The consumer's configuration whose text this is, if it is that of a valid one.
#[tactic(auto, unfolding(crate::specs::Reading::consumer_of))]
pub fn read_consumer_text(alloc: Global, text: &[u8]) -> Result<Option<ConsumerConfig>, NoMemory>
    ensures value { IfOk result (λ config. config ≡ consumer_of text.now) }
{
    match said(alloc, text)? {
        Some(config) => if_consumer_text(alloc, text, config),
        None => Ok(None),
    }
}
