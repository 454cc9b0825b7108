//! Calls are read.

ghost use Rattle.std.specs.Prelude.{◌≡◌, IfOk, IfErr, IfSome};
ghost use Rattle.api_requests.specs.Answers.{Reads, ReadsCall};
ghost use Rattle.api_requests.specs.Read.{IsRead, IsShown};
ghost use Rattle.api_requests.specs.Requests.{general_request, stream_request, request_of};
ghost use Rattle.api_requests.specs.declared.call.StreamCall.TheVariants as stream;

use crate::call::{GeneralCall, StreamCall, general_call, stream_call};
use crate::consumer_call::consumer_call;
use crate::consumers::{read_on_consumer, refuse_unnamed};
use crate::fault::ApiFault;
use crate::listing::{fields_of, listing_of, object_in, page_of, setup_of, token_name};
use crate::messages::{Purge, message_in, purge_in, sequence_in};
use crate::request::ApiRequest;
use std::alloc::Global;

/// A call on no stream of its own.
#[tactic(auto, unfolding(crate::specs::Requests::general_request))]
fn read_general(alloc: Global, call: GeneralCall, body: &[u8]) -> Result<ApiRequest, ApiFault>
    ensures reading { Reads result (general_request call body.now) }
{
    match call {
        GeneralCall::AccountInfo => Ok(ApiRequest::AccountInfo),
        GeneralCall::StreamNames => {
            let (offset, subject) = listing_of(alloc, body)?;
            Ok(ApiRequest::StreamNames { offset, subject })
        }
        GeneralCall::StreamList => {
            let (offset, subject) = listing_of(alloc, body)?;
            Ok(ApiRequest::StreamList { offset, subject })
        }
    }
}

/// A purge of a stream.
#[tactic(auto, unfolding(crate::specs::Requests::stream_request))]
fn read_purge(alloc: Global, token: &[u8], body: &[u8]) -> Result<ApiRequest, ApiFault>
    ensures reading { Reads result (stream_request stream.Purge token.now body.now) }
{
    let fields = fields_of(alloc, body)?;
    let stream = token_name(alloc, token)?;
    let Purge { filter, seq, keep } = purge_in(alloc, &fields)?;
    Ok(ApiRequest::StreamPurge {
        stream,
        filter,
        seq,
        keep,
    })
}

/// A question for one message.
#[tactic(auto, unfolding(crate::specs::Requests::stream_request))]
fn read_message_get(alloc: Global, token: &[u8], body: &[u8]) -> Result<ApiRequest, ApiFault>
    ensures reading { Reads result (stream_request stream.MsgGet token.now body.now) }
{
    let fields = object_in(alloc, body)?;
    let stream = token_name(alloc, token)?;
    let by = message_in(alloc, &fields)?;
    Ok(ApiRequest::StreamMsgGet { stream, by })
}

/// A deletion of one message.
#[tactic(auto, unfolding(crate::specs::Requests::stream_request))]
fn read_message_delete(alloc: Global, token: &[u8], body: &[u8]) -> Result<ApiRequest, ApiFault>
    ensures reading { Reads result (stream_request stream.MsgDelete token.now body.now) }
{
    let fields = object_in(alloc, body)?;
    let stream = token_name(alloc, token)?;
    let seq = sequence_in(alloc, &fields)?;
    Ok(ApiRequest::StreamMsgDelete { stream, seq })
}

/// A call on one stream.
#[tactic(auto, unfolding(crate::specs::Requests::stream_request))]
fn read_on_stream(
    alloc: Global,
    call: StreamCall,
    token: &[u8],
    body: &[u8],
) -> Result<ApiRequest, ApiFault>
    ensures reading { Reads result (stream_request call token.now body.now) }
{
    match call {
        StreamCall::Create => {
            let (stream, config) = setup_of(alloc, token, body)?;
            Ok(ApiRequest::StreamCreate { stream, config })
        }
        StreamCall::Update => {
            let (stream, config) = setup_of(alloc, token, body)?;
            Ok(ApiRequest::StreamUpdate { stream, config })
        }
        StreamCall::Info => {
            fields_of(alloc, body)?;
            let stream = token_name(alloc, token)?;
            Ok(ApiRequest::StreamInfo { stream })
        }
        StreamCall::Delete => {
            let stream = token_name(alloc, token)?;
            Ok(ApiRequest::StreamDelete { stream })
        }
        StreamCall::Purge => read_purge(alloc, token, body),
        StreamCall::MsgGet => read_message_get(alloc, token, body),
        StreamCall::MsgDelete => read_message_delete(alloc, token, body),
        StreamCall::ConsumerNames => {
            let (stream, offset) = page_of(alloc, token, body)?;
            Ok(ApiRequest::ConsumerNames { stream, offset })
        }
        StreamCall::ConsumerList => {
            let (stream, offset) = page_of(alloc, token, body)?;
            Ok(ApiRequest::ConsumerList { stream, offset })
        }
        StreamCall::ConsumerCreate => refuse_unnamed(alloc, token, body),
    }
}

/// The call that a subject and a body are, and `None` exactly if the subject is not a call. The subjects are `$JS.API.` and one of `INFO`,
/// `STREAM.NAMES`, `STREAM.LIST`; with the name of a stream behind, one of `STREAM.CREATE`, `STREAM.UPDATE`, `STREAM.INFO`, `STREAM.DELETE`,
/// `STREAM.PURGE`, `STREAM.MSG.GET`, `STREAM.MSG.DELETE`, `CONSUMER.NAMES`, `CONSUMER.LIST` and `CONSUMER.CREATE`; and with the names of a stream and a
/// consumer behind, one of `CONSUMER.CREATE`, which may have a filter behind them, `CONSUMER.DURABLE.CREATE`, `CONSUMER.INFO`, `CONSUMER.DELETE` and
/// `CONSUMER.MSG.NEXT`.
///
/// If several things are wrong, the first of these is the refusal: 10025, the body is not a JSON object; 20001 of `name`, a token is no name; 20001 of a
/// field, or 20002 if the server leaves it out, in the order of the keys, those of a consumer's configuration at `config`; 20003 and 20005, a consumer
/// lacks where it starts, or a durable name; 20022, another name in the body than in the subject, or another filter. An empty body is an object without
/// fields, but for `STREAM.MSG.GET`, `STREAM.MSG.DELETE` and those that make a consumer, which need a field; the bodies of `INFO`, `STREAM.DELETE`,
/// `CONSUMER.INFO` and `CONSUMER.DELETE` are not looked at. `CONSUMER.MSG.NEXT` is never refused, and `CONSUMER.CREATE` without a consumer always, by 20005 or
/// 20022 at last. `NoMemory` may come for each call.
///
/// In a purge a `seq` or `keep` of 0 counts as absent, and both of them are 20001 of `keep`. A message is asked for by just one of `seq`, which may
/// be 0, and `last_by_subj`, or else 20001 of `seq`; it is deleted by `seq`. An empty `filter`, `subject`, `last_by_subj` or `action` counts as absent,
/// and an absent `config` is `{}`.
///
/// What is read is valid: names, configurations, numbers and patterns are such, and the texts that replies show are UTF-8, as that of a refusal.
#[tactic(auto, unfolding(crate::specs::Requests::request_of))]
pub fn read_request(
    alloc: Global,
    subject: &[u8],
    body: &[u8],
) -> Result<Option<ApiRequest>, ApiFault>
    ensures reading { ReadsCall result (request_of subject.now body.now) }
    ensures request { IfOk result (λ found. IfSome found IsRead) }
    ensures refusal { IfErr result IsShown }
{
    if let Some(call) = general_call(subject) {
        return read_general(alloc, call, body).map(Some);
    }
    if let Some((call, token)) = stream_call(subject) {
        return read_on_stream(alloc, call, token, body).map(Some);
    }
    match consumer_call(subject) {
        Some((call, tokens)) => read_on_consumer(alloc, call, &tokens, body).map(Some),
        None => Ok(None),
    }
}
