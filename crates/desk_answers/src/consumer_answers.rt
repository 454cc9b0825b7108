//! How a stream answers what it was asked of its consumers.

ghost use Rattle.std.specs.Prelude.{◌≡◌, IfOk, IfSome};
ghost use Rattle.api_calls.specs.Names.{name_of};
ghost use Rattle.api_replies.specs.Printed.{ConsumerIsText, IsText};
ghost use Rattle.js_api.specs.Outputs.{consumer_informed, consumers_listed, consumers_named};
ghost use Rattle.place_engine.specs.Shown.{IsShown};
ghost use Rattle.desk_answers.specs.InfoCalls.{consumer_answer_by, consumer_call_of};

use crate::copying::{copy_consumer_info, copy_consumer_infos};
use crate::replying::refused;
use js_api::{ApiCall, ApiReply};
use js_base::NoMemory;
use js_model::{ConsumerInfo, Reply, copy_texts};
use std::alloc::Global;

/// A call that a stream answers by the information of a consumer.
#[derive(Clone, Copy)]
pub(crate) enum ConsumerCall {
    Create,
    Info,
}

impl ConsumerCall {
    /// The call of the API.
    fn call(self) -> ApiCall
        ensures value { result ≡ consumer_call_of self }
    {
        match self {
            ConsumerCall::Create => ApiCall::ConsumerCreate,
            ConsumerCall::Info => ApiCall::ConsumerInfo,
        }
    }

    /// The answer with this information.
    fn answer(self, info: ConsumerInfo) -> ApiReply
        requires texts { ConsumerIsText info }
        ensures value { result ≡ consumer_answer_by self info }
        ensures texts { IsText result }
    {
        match self {
            ConsumerCall::Create => ApiReply::ConsumerCreate(info),
            ConsumerCall::Info => ApiReply::ConsumerInfo(info),
        }
    }
}

/// How such a call is answered.
pub(crate) fn consumer_informed(
    alloc: Global,
    call: ConsumerCall,
    reply: &Reply,
) -> Result<Option<ApiReply>, NoMemory>
    requires shown { IsShown reply.now }
    ensures value { IfOk result (λ told. told ≡ consumer_informed (consumer_answer_by call) (name_of (consumer_call_of call)) reply.now) }
    ensures texts { IfOk result (λ told. IfSome told IsText) }
{
    match reply {
        Reply::ConsumerInfo(info) => Ok(Some(call.answer(copy_consumer_info(info)?))),
        Reply::Refused(refusal) => Ok(Some(refused(alloc, call.call(), refusal)?)),
        Reply::Info(_)
        | Reply::Done
        | Reply::Published(_)
        | Reply::Duplicate(_)
        | Reply::Purged(_)
        | Reply::Message(_)
        | Reply::Names { .. }
        | Reply::Infos { .. }
        | Reply::Confirmed
        | Reply::Silent
        | Reply::Nobody => Ok(None),
    }
}

/// How a question for the names of the consumers from this place on is answered.
pub(crate) fn consumers_named(
    alloc: Global,
    offset: u64,
    reply: &Reply,
) -> Result<Option<ApiReply>, NoMemory>
    requires shown { IsShown reply.now }
    ensures value { IfOk result (λ told. told ≡ consumers_named offset reply.now) }
    ensures texts { IfOk result (λ told. IfSome told IsText) }
{
    match reply {
        Reply::Names { total, list } => Ok(Some(ApiReply::ConsumerNames {
            consumers: copy_texts(alloc, list.as_slice())?,
            offset,
            total: *total,
        })),
        Reply::Refused(refusal) => Ok(Some(refused(alloc, ApiCall::ConsumerNames, refusal)?)),
        Reply::Info(_)
        | Reply::Done
        | Reply::Published(_)
        | Reply::Duplicate(_)
        | Reply::Purged(_)
        | Reply::ConsumerInfo(_)
        | Reply::Message(_)
        | Reply::Infos { .. }
        | Reply::Confirmed
        | Reply::Silent
        | Reply::Nobody => Ok(None),
    }
}

/// How a question for their informations is answered.
pub(crate) fn consumers_listed(
    alloc: Global,
    offset: u64,
    reply: &Reply,
) -> Result<Option<ApiReply>, NoMemory>
    requires shown { IsShown reply.now }
    ensures value { IfOk result (λ told. told ≡ consumers_listed offset reply.now) }
    ensures texts { IfOk result (λ told. IfSome told IsText) }
{
    match reply {
        Reply::Infos { total, list } => Ok(Some(ApiReply::ConsumerList {
            consumers: copy_consumer_infos(alloc, list.as_slice())?,
            offset,
            total: *total,
        })),
        Reply::Refused(refusal) => Ok(Some(refused(alloc, ApiCall::ConsumerList, refusal)?)),
        Reply::Info(_)
        | Reply::Done
        | Reply::Published(_)
        | Reply::Duplicate(_)
        | Reply::Purged(_)
        | Reply::ConsumerInfo(_)
        | Reply::Message(_)
        | Reply::Names { .. }
        | Reply::Confirmed
        | Reply::Silent
        | Reply::Nobody => Ok(None),
    }
}
