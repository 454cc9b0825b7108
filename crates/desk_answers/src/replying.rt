//! Messages from the server itself.

ghost use Rattle.std.specs.Prelude.{◌≡◌, ◌<◌, IfOk, IsUtf8, OnErr, length};
ghost use Rattle.api_calls.specs.Names.{name_of};
ghost use Rattle.api_replies.specs.Printed.{IsText};
ghost use Rattle.api_replies.specs.PubAcks.{publish_text};
ghost use Rattle.api_replies.specs.declared.reply.ApiReply.TheVariants as replies;
ghost use Rattle.js_api.specs.OneStream.{answer};
ghost use Rattle.js_api.specs.Outputs.{message_to};
ghost use Rattle.js_api.specs.Publishing.{publish_refusal};
ghost use Rattle.js_model.specs.declared.reply.Reply.TheVariants.{Refused};

use js_api::{ApiCall, ApiReply, publish_text, reply_text};
use js_base::{ApiError, Blob, List, NoMemory, Out, Outs};
use js_model::Reply;
use std::alloc::Global;

/// A message from the server itself, to a subject.
pub fn message_to(to: &Blob, payload: Blob) -> Result<Out, NoMemory>
    ensures message { IfOk result (λ out. out ≡ message_to to.now payload) }
{
    Ok(Out {
        to: to.clone()?,
        subject: to.clone()?,
        reply: None,
        headers: Blob::empty(),
        payload,
    })
}

/// The refusal of this call.
pub(crate) fn refused(
    alloc: Global,
    call: ApiCall,
    refusal: &ApiError,
) -> Result<ApiReply, NoMemory>
    requires text { IsUtf8 refusal.now.text }
    ensures value { IfOk result (λ told. told ≡ replies.Refused (name_of call) refusal.now) }
    ensures texts { IfOk result IsText }
{
    let copy = ApiError {
        code: refusal.code,
        err_code: refusal.err_code,
        text: refusal.text.clone()?,
    };
    Ok(ApiReply::Refused(Blob::of(alloc, call.name())?, copy))
}

/// The message with this answer, or no message if there is no subject for it. An `Err` comes only if there is one.
pub fn answer_outs(alloc: Global, to: &Option<Blob>, reply: &ApiReply) -> Result<Outs, NoMemory>
    requires texts { IsText reply.now }
    ensures outs { IfOk result (λ outs. outs ≡ answer to.now reply.now) }
    ensures err { OnErr result (0 < length (answer to.now reply.now)) }
{
    let mut outs = List::new(alloc);
    if let Some(to) = to {
        let text = reply_text(alloc, reply)?;
        outs.push(message_to(to, text)?)?;
    }
    Ok(outs)
}

/// The text that refuses a publish to the stream of this name.
fn refusal_text(alloc: Global, stream: &[u8], refusal: ApiError) -> Result<Option<Blob>, NoMemory>
    requires utf8 { IsUtf8 stream.now }
    requires text { IsUtf8 refusal.text }
    ensures text { IfOk result (λ text. text ≡ publish_text stream.now (Refused refusal)) }
{
    let reply = Reply::Refused(refusal);
    publish_text(alloc, stream, &reply)
}

/// The message that refuses a publish to the stream of this name, or no message if there is no subject for it. An `Err` comes only if there is one.
pub fn publish_refusal(
    alloc: Global,
    to: &Option<Blob>,
    stream: &[u8],
    refusal: ApiError,
) -> Result<Outs, NoMemory>
    requires utf8 { IsUtf8 stream.now }
    requires text { IsUtf8 refusal.text }
    ensures outs { IfOk result (λ outs. outs ≡ publish_refusal to.now stream.now refusal) }
    ensures err { OnErr result (0 < length (publish_refusal to.now stream.now refusal)) }
{
    let mut outs = List::new(alloc);
    if let Some(to) = to {
        if let Some(text) = refusal_text(alloc, stream, refusal)? {
            outs.push(message_to(to, text)?)?;
        }
    }
    Ok(outs)
}
