//! Calls on consumers are read.

ghost use Rattle.std.specs.Prelude.{◌≡◌, codes, Some, option_map};
ghost use Rattle.js_json.specs.Fields.{part_in};
ghost use Rattle.js_json.specs.Members.{members};
ghost use Rattle.consumer_config.specs.Reading.{reading};
ghost use Rattle.api_requests.specs.Answers.{Reads};
ghost use Rattle.api_requests.specs.Consumers.{names_of, update_by, update_in, config_told, checked, config_in, settings_in, agrees, agreeing, creation_of};
ghost use Rattle.api_requests.specs.Requests.{consumer_request, stream_request};
ghost use Rattle.api_requests.specs.Seen.{seen, tokens_seen};
ghost use Rattle.api_requests.specs.declared.call.StreamCall.TheVariants as stream;
ghost use Rattle.api_requests.specs.declared.consumer_call.ConsumerCall.TheVariants as calls;
ghost use Rattle.api_requests.specs.declared.request.ApiRequest.TheVariants as requests;

use crate::consumer_call::{ConsumerCall, ConsumerTokens};
use crate::fault::ApiFault;
use crate::field::{given_text_in, text_in};
use crate::listing::{object_in, token_name};
use crate::request::ApiRequest;
use ack_parse::read_ask;
use consumer_config::ConfigFault;
use js_base::{Blob, Name};
use js_json::{Fields, JsonFault};
use js_model::ConsumerConfig;
use js_model::refusals::{invalid_value, name_mismatch};
use std::alloc::Global;

/// What a body says of a consumer.
#[derive(Drop)]
pub(crate) struct Settings {
    /// Whether the consumer has to be there.
    pub(crate) update: bool,
    pub(crate) config: ConsumerConfig,
    /// The name of its stream, if the body says one: any text.
    pub(crate) stream: Option<Blob>,
}

/// A consumer that is to be made.
#[derive(Drop)]
pub(crate) struct Creation {
    pub(crate) stream: Name,
    pub(crate) consumer: Name,
    pub(crate) config: ConsumerConfig,
    /// Whether it has to be there.
    pub(crate) update: bool,
}

/// The names in the tokens of a stream and of a consumer.
#[tactic(auto, unfolding(crate::specs::Consumers::names_of))]
fn names_of(alloc: Global, tokens: &ConsumerTokens) -> Result<(Name, Name), ApiFault>
    ensures reading { Reads result (names_of (tokens_seen tokens.now)) }
{
    let stream = token_name(alloc, tokens.stream)?;
    let consumer = token_name(alloc, tokens.consumer)?;
    Ok((stream, consumer))
}

/// Whether the consumer has to be there, by this action.
fn update_by(alloc: Global, action: &[u8]) -> Result<bool, ApiFault>
    ensures reading { Reads result (update_by (Some action.now)) }
{
    if action == b"create".as_slice() {
        Ok(false)
    } else if action == b"update".as_slice() {
        Ok(true)
    } else {
        Err(ApiFault::Refused(invalid_value(alloc, b"action")?))
    }
}

/// Whether the fields say that the consumer has to be there.
#[tactic(auto, unfolding(crate::specs::Consumers::update_in))]
fn update_in(alloc: Global, fields: &Fields) -> Result<bool, ApiFault>
    ensures reading { Reads result (update_in (members fields.now)) }
{
    match text_in(alloc, fields, "action")? {
        Some(action) => update_by(alloc, action.as_slice()),
        None => Ok(false),
    }
}

/// The object in the field `config`. An absent one has no fields.
fn config_told(alloc: Global, fields: &Fields) -> Result<Fields, ApiFault>
    ensures reading { Reads (seen result) (config_told (part_in (codes "config") (members fields.now))) }
{
    match fields.part("config") {
        Ok(Some(config)) => Ok(config),
        Ok(None) => object_in(alloc, b"{}"),
        Err(JsonFault::NoMemory) => Err(ApiFault::NoMemory),
        Err(_) => Err(ApiFault::Refused(invalid_value(alloc, b"config")?)),
    }
}

/// Refuses the first field of a configuration that holds what it may not hold.
#[tactic(auto, unfolding(crate::specs::Consumers::checked))]
fn checked(alloc: Global, config: &Fields) -> Result<(), ApiFault>
    ensures reading { Reads result (checked (members config.now)) }
{
    match consumer_config::check_fields(alloc, config) {
        Ok(()) => Ok(()),
        Err(ConfigFault::Refused(refusal)) => Err(ApiFault::Refused(refusal)),
        Err(ConfigFault::NoMemory) => Err(ApiFault::NoMemory),
    }
}

/// The fields of the configuration, each of which holds what it may hold.
#[tactic(auto, unfolding(crate::specs::Consumers::config_in))]
fn config_in(alloc: Global, fields: &Fields) -> Result<Fields, ApiFault>
    ensures reading { Reads (seen result) (config_in (members fields.now)) }
{
    let config = config_told(alloc, fields)?;
    checked(alloc, &config)?;
    Ok(config)
}

/// The configuration of the consumer with this name.
fn read_config(alloc: Global, consumer: &Name, config: &Fields) -> Result<ConsumerConfig, ApiFault>
    ensures reading { Reads result (reading consumer.now (members config.now)) }
{
    match consumer_config::read(alloc, config, consumer) {
        Ok(config) => Ok(config),
        Err(ConfigFault::Refused(refusal)) => Err(ApiFault::Refused(refusal)),
        Err(ConfigFault::NoMemory) => Err(ApiFault::NoMemory),
    }
}

/// What the fields say of the consumer with this name.
#[tactic(auto, unfolding(crate::specs::Consumers::settings_in))]
fn settings_in(alloc: Global, consumer: &Name, fields: &Fields) -> Result<Settings, ApiFault>
    ensures reading { Reads result (settings_in consumer.now (members fields.now)) }
{
    let update = update_in(alloc, fields)?;
    let members = config_in(alloc, fields)?;
    let stream = given_text_in(alloc, fields, "stream_name")?;
    let config = read_config(alloc, consumer, &members)?;
    Ok(Settings {
        update,
        config,
        stream,
    })
}

impl Settings {
    /// Whether they say no other stream than this.
    fn agrees_on_stream(&self, stream: &Name) -> bool
        ensures value { result ≡ agrees self.now.stream stream.now }
    {
        match &self.stream {
            Some(other) => other.as_slice() == stream.as_slice(),
            None => true,
        }
    }

    /// Whether the filter of the subject, if there is one, is theirs.
    fn agrees_on_filter(&self, filter: Option<&[u8]>) -> bool
        ensures value { result ≡ agrees (option_map (λ text. text.now) filter.entry) self.now.config.filter_subject }
    {
        match filter {
            Some(other) => other == self.config.filter_subject.as_slice(),
            None => true,
        }
    }
}

/// Refuses another stream than that of the subject, and another filter.
fn agreeing(
    alloc: Global,
    stream: &Name,
    filter: Option<&[u8]>,
    settings: &Settings,
) -> Result<(), ApiFault>
    ensures reading { Reads result (agreeing stream.now (option_map (λ text. text.now) filter.entry) settings.now) }
{
    if settings.agrees_on_stream(stream) && settings.agrees_on_filter(filter) {
        Ok(())
    } else {
        Err(ApiFault::Refused(name_mismatch(alloc)?))
    }
}

/// The consumer that is to be made.
#[tactic(auto, unfolding(crate::specs::Consumers::creation_of))]
fn creation_of(alloc: Global, tokens: &ConsumerTokens, body: &[u8]) -> Result<Creation, ApiFault>
    ensures reading { Reads result (creation_of (tokens_seen tokens.now) body.now) }
{
    let fields = object_in(alloc, body)?;
    let (stream, consumer) = names_of(alloc, tokens)?;
    let settings = settings_in(alloc, &consumer, &fields)?;
    agreeing(alloc, &stream, tokens.filter, &settings)?;
    Ok(Creation {
        stream,
        consumer,
        config: settings.config,
        update: settings.update,
    })
}

/// A creation that names no consumer, which is refused. A durable name is not the subject's, whatever name it is compared with: here the stream's.
#[tactic(auto, unfolding(crate::specs::Requests::stream_request))]
pub(crate) fn refuse_unnamed(
    alloc: Global,
    token: &[u8],
    body: &[u8],
) -> Result<ApiRequest, ApiFault>
    ensures reading { Reads result (stream_request stream.ConsumerCreate token.now body.now) }
{
    let fields = object_in(alloc, body)?;
    let stream = token_name(alloc, token)?;
    settings_in(alloc, &stream, &fields)?;
    Err(ApiFault::Refused(name_mismatch(alloc)?))
}

/// A question for messages.
#[tactic(auto, unfolding(crate::specs::Requests::consumer_request))]
fn read_msg_next(
    alloc: Global,
    tokens: &ConsumerTokens,
    body: &[u8],
) -> Result<ApiRequest, ApiFault>
    ensures reading { Reads result (consumer_request calls.MsgNext (tokens_seen tokens.now) body.now) }
{
    let ask = read_ask(alloc, body)?;
    let stream = Blob::of(alloc, tokens.stream)?;
    let consumer = Blob::of(alloc, tokens.consumer)?;
    Ok(ApiRequest::ConsumerMsgNext {
        stream,
        consumer,
        ask,
    })
}

/// A call on a consumer.
#[tactic(auto, unfolding(crate::specs::Requests::consumer_request))]
pub(crate) fn read_on_consumer(
    alloc: Global,
    call: ConsumerCall,
    tokens: &ConsumerTokens,
    body: &[u8],
) -> Result<ApiRequest, ApiFault>
    ensures reading { Reads result (consumer_request call (tokens_seen tokens.now) body.now) }
{
    match call {
        ConsumerCall::Create => Ok(creation_of(alloc, tokens, body)?.request()),
        ConsumerCall::DurableCreate => Ok(creation_of(alloc, tokens, body)?.durable_request()),
        ConsumerCall::Info => {
            let (stream, consumer) = names_of(alloc, tokens)?;
            Ok(ApiRequest::ConsumerInfo { stream, consumer })
        }
        ConsumerCall::Delete => {
            let (stream, consumer) = names_of(alloc, tokens)?;
            Ok(ApiRequest::ConsumerDelete { stream, consumer })
        }
        ConsumerCall::MsgNext => read_msg_next(alloc, tokens, body),
    }
}

impl Creation {
    /// The request for it.
    fn request(self) -> ApiRequest
        ensures value { result ≡ requests.ConsumerCreate self.stream self.consumer self.config self.update }
    {
        ApiRequest::ConsumerCreate {
            stream: self.stream,
            consumer: self.consumer,
            config: self.config,
            update: self.update,
        }
    }

    /// The same by the other subject.
    fn durable_request(self) -> ApiRequest
        ensures value { result ≡ requests.ConsumerDurableCreate self.stream self.consumer self.config self.update }
    {
        ApiRequest::ConsumerDurableCreate {
            stream: self.stream,
            consumer: self.consumer,
            config: self.config,
            update: self.update,
        }
    }
}
