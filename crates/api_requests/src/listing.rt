//! The object that a body is, the configuration or the page of a list that it asks for, and the stream's name in a subject.

ghost use Rattle.std.specs.Prelude.{◌≡◌};
ghost use Rattle.js_json.specs.Members.{members};
ghost use Rattle.stream_config.specs.Reading.{reading};
ghost use Rattle.api_requests.specs.Answers.{Reads};
ghost use Rattle.api_requests.specs.Bodies.{object_in, fields_of, token_name, listing_of, setup_of, page_of, or_braces};
ghost use Rattle.api_requests.specs.Seen.{seen};

use crate::fault::ApiFault;
use crate::field::{number_in, pattern_in};
use js_base::{Blob, Name, NameFault};
use js_json::{Fields, JsonFault, object};
use js_model::StreamConfig;
use js_model::refusals::{invalid_json, invalid_value};
use std::alloc::Global;
use stream_config::ConfigFault;

/// The body, or `{}` if it is empty.
fn or_braces(body: &[u8]) -> &[u8]
    ensures value { result.now ≡ or_braces body.now }
{
    if body.is_empty() { b"{}" } else { body }
}

/// The fields of a body that has to be an object, and so is not empty.
#[tactic(auto, unfolding(crate::specs::Bodies::object_in))]
pub(crate) fn object_in(alloc: Global, body: &[u8]) -> Result<Fields, ApiFault>
    ensures reading { Reads (seen result) (object_in body.now) }
{
    match object(alloc, body) {
        Ok(fields) => Ok(fields),
        Err(JsonFault::NoMemory) => Err(ApiFault::NoMemory),
        Err(_) => Err(ApiFault::Refused(invalid_json(alloc)?)),
    }
}

/// The fields of a body. An empty one has none.
pub(crate) fn fields_of(alloc: Global, body: &[u8]) -> Result<Fields, ApiFault>
    ensures reading { Reads (seen result) (fields_of body.now) }
{
    object_in(alloc, or_braces(body))
}

/// The name of a stream or a consumer, in its token.
#[tactic(auto, unfolding(crate::specs::Bodies::token_name))]
pub(crate) fn token_name(alloc: Global, token: &[u8]) -> Result<Name, ApiFault>
    ensures reading { Reads result (token_name token.now) }
{
    match Name::read(alloc, token) {
        Ok(name) => Ok(name),
        Err(NameFault::NoMemory) => Err(ApiFault::NoMemory),
        Err(_) => Err(ApiFault::Refused(invalid_value(alloc, b"name")?)),
    }
}

/// The stream's name in its token, and its configuration in the body.
#[tactic(auto, unfolding(crate::specs::Bodies::setup_of))]
pub(crate) fn setup_of(
    alloc: Global,
    token: &[u8],
    body: &[u8],
) -> Result<(Name, StreamConfig), ApiFault>
    ensures reading { Reads result (setup_of token.now body.now) }
{
    let fields = fields_of(alloc, body)?;
    let name = token_name(alloc, token)?;
    let config = config_of(alloc, &fields, &name)?;
    Ok((name, config))
}

/// The configuration of the stream with this name.
fn config_of(alloc: Global, fields: &Fields, name: &Name) -> Result<StreamConfig, ApiFault>
    ensures reading { Reads result (reading name.now (members fields.now)) }
{
    match stream_config::read(alloc, fields, name) {
        Ok(config) => Ok(config),
        Err(ConfigFault::Refused(refusal)) => Err(ApiFault::Refused(refusal)),
        Err(ConfigFault::NoMemory) => Err(ApiFault::NoMemory),
    }
}

/// The place and the pattern of a list.
#[tactic(auto, unfolding(crate::specs::Bodies::listing_of))]
pub(crate) fn listing_of(alloc: Global, body: &[u8]) -> Result<(u64, Option<Blob>), ApiFault>
    ensures reading { Reads result (listing_of body.now) }
{
    let fields = fields_of(alloc, body)?;
    let offset = number_in(alloc, &fields, "offset")?;
    let subject = pattern_in(alloc, &fields, "subject")?;
    Ok((offset.unwrap_or(0), subject))
}

/// The stream's name in its token, and the place from which its consumers are told.
#[tactic(auto, unfolding(crate::specs::Bodies::page_of))]
pub(crate) fn page_of(alloc: Global, token: &[u8], body: &[u8]) -> Result<(Name, u64), ApiFault>
    ensures reading { Reads result (page_of token.now body.now) }
{
    let fields = fields_of(alloc, body)?;
    let name = token_name(alloc, token)?;
    let offset = number_in(alloc, &fields, "offset")?.unwrap_or(0);
    Ok((name, offset))
}
