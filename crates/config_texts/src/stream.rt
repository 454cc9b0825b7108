//! The texts of streams' configurations.

ghost use Rattle.std.specs.Prelude.{◌≡◌, option_and_then, IfOk, IfSome};
ghost use Rattle.js_json.specs.Members.{members};
ghost use Rattle.js_json.specs.Objects.{object_of};
ghost use Rattle.stream_config.specs.Printing.{IsPrinted};
ghost use Rattle.config_texts.specs.Reading.{allowed, stream_in, if_stream_text, stream_of};
ghost use Rattle.config_texts.specs.Texts.{stream_text};

use crate::lookup::{fields_of, name_in};
use js_base::{Blob, NoMemory};
use js_json::Fields;
use js_model::StreamConfig;
use std::alloc::Global;
use stream_config::{ConfigFault, print, read};

/// The text of the configuration.
#[tactic(auto, unfolding(crate::specs::Texts::stream_text), using(crate::proofs::Floats::stream_whole))]
pub fn stream_text(alloc: Global, config: &StreamConfig) -> Result<Blob, NoMemory>
    requires utf8 { IsPrinted config.now }
    ensures text { IfOk result (λ text. text ≡ stream_text config.now) }
{
    let text = print(alloc, config)?.to_string(alloc)?;
    Blob::of(alloc, text.as_bytes())
}

/// The configuration that the fields say, by the name among them.
#[tactic(auto, unfolding(crate::specs::Reading::stream_in))]
fn stream_in(alloc: Global, fields: &Fields) -> Result<Option<StreamConfig>, NoMemory>
    ensures value { IfOk result (λ config. config ≡ stream_in (members fields.now)) }
    ensures printable { IfOk result (λ config. IfSome config IsPrinted) }
{
    let Some(name) = name_in(alloc, fields)? else {
        return Ok(None);
    };
    match read(alloc, fields, &name) {
        Ok(config) => Ok(Some(config)),
        Err(ConfigFault::Refused(_)) => Ok(None),
        Err(ConfigFault::NoMemory) => Err(NoMemory),
    }
}

/// The configuration, if it has this text.
fn if_stream_text(
    alloc: Global,
    text: &[u8],
    config: StreamConfig,
) -> Result<Option<StreamConfig>, NoMemory>
    requires utf8 { IsPrinted config }
    ensures value { IfOk result (λ same. same ≡ if_stream_text text.now config) }
{
    let own = stream_text(alloc, &config)?;
    if own.as_slice() == text {
        Ok(Some(config))
    } else {
        Ok(None)
    }
}

/// The configuration that the object in the text says.
fn said(alloc: Global, text: &[u8]) -> Result<Option<StreamConfig>, NoMemory>
    ensures value { IfOk result (λ config. config ≡ option_and_then stream_in (allowed (object_of text.now))) }
    ensures printable { IfOk result (λ config. IfSome config IsPrinted) }
{
    match fields_of(alloc, text)? {
        Some(fields) => stream_in(alloc, &fields),
        None => Ok(None),
    }
}

/// The stream's configuration whose text this is, if it is that of a valid one.
#[tactic(auto, unfolding(crate::specs::Reading::stream_of))]
pub fn read_stream_text(alloc: Global, text: &[u8]) -> Result<Option<StreamConfig>, NoMemory>
    ensures value { IfOk result (λ config. config ≡ stream_of text.now) }
{
    match said(alloc, text)? {
        Some(config) => if_stream_text(alloc, text, config),
        None => Ok(None),
    }
}
