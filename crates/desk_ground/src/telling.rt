//! The server's own messages.

ghost use Rattle.std.specs.Prelude.{◌≡◌, ◌<◌, IfOk, IsUtf8, OnErr, length, true};
ghost use Rattle.api_calls.specs.Names.{name_of};
ghost use Rattle.api_replies.specs.Printed.{IsText};
ghost use Rattle.js_api.specs.Leading.{Makes};
ghost use Rattle.js_api.specs.OneStream.{Answers, answer as answer_outs, refusal as refusal_outs};
ghost use Rattle.js_api.specs.Stages.{Sends};
ghost use Rattle.desk_ground.specs.Reasons.{error_of};

use crate::ground::Ground;
use crate::reason::Reason;
use desk_answers::answer_outs;
use js_api::{ApiCall, ApiReply, DeskFault};
use js_base::{ApiError, Blob, NoMemory, Out, Outs};
use std::alloc::Global;

/// Sends the messages, in order.
pub fn send_all<G: Ground>(ground: &mut G, outs: &[Out]) -> Result<(), DeskFault>
    ensures made { Makes G.made (Sends outs.now result) ground.old ground.new }
    ensures setting { G.setting ground.new ≡ G.setting ground.old }
    ensures phase { G.phase ground.new ≡ G.phase ground.old }
{
    for out in outs {
        ground.send(out)?;
    }
    Ok(())
}

// ---- answers to calls of the API

/// Sends these messages as the answer to a call or a publish, which so is taken.
pub fn answer_by<G: Ground>(ground: &mut G, outs: &[Out]) -> Result<bool, DeskFault>
    ensures made { Makes G.made (Answers outs.now result) ground.old ground.new }
    ensures setting { G.setting ground.new ≡ G.setting ground.old }
    ensures phase { G.phase ground.new ≡ G.phase ground.old }
{
    send_all(ground, outs)?;
    Ok(true)
}

/// The message with this answer, or no message if there is no subject for it. An `Err` comes only if there is one.
fn outs_of(alloc: Global, to: &Option<Blob>, reply: ApiReply) -> Result<Outs, NoMemory>
    requires texts { IsText reply }
    ensures outs { IfOk result (λ outs. outs ≡ answer_outs to.now reply) }
    ensures err { OnErr result (0 < length (answer_outs to.now reply)) }
{
    answer_outs(alloc, to, &reply)
}

/// Sends the answer, if there is a subject for it.
pub fn answer<G: Ground>(
    ground: &mut G,
    to: &Option<Blob>,
    reply: ApiReply,
) -> Result<bool, DeskFault>
    requires texts { IsText reply }
    ensures made { Makes G.made (Answers (answer_outs to.now reply) result) ground.old ground.new }
    ensures setting { G.setting ground.new ≡ G.setting ground.old }
    ensures phase { G.phase ground.new ≡ G.phase ground.old }
{
    match outs_of(ground.alloc(), to, reply) {
        Ok(outs) => answer_by(ground, outs.as_slice()),
        Err(_) => Err(DeskFault::NoMemory),
    }
}

/// Refuses the call of this name.
pub fn refuse<G: Ground>(
    ground: &mut G,
    name: &[u8],
    to: &Option<Blob>,
    refusal: ApiError,
) -> Result<bool, DeskFault>
    requires name { IsUtf8 name.now }
    requires text { IsUtf8 refusal.text }
    ensures made { Makes G.made (Answers (refusal_outs name.now to.now refusal) result) ground.old ground.new }
    ensures setting { G.setting ground.new ≡ G.setting ground.old }
    ensures phase { G.phase ground.new ≡ G.phase ground.old }
{
    if to.is_none() {
        return Ok(true);
    }
    match Blob::of(ground.alloc(), name) {
        Ok(name) => answer(ground, to, ApiReply::Refused(name, refusal)),
        Err(_) => Err(DeskFault::NoMemory),
    }
}

/// Refuses a call on a stream for this reason.
pub fn refuse_for<G: Ground>(
    ground: &mut G,
    call: ApiCall,
    to: &Option<Blob>,
    reason: Reason,
) -> Result<bool, DeskFault>
    ensures made { Makes G.made (Answers (refusal_outs (name_of call) to.now (error_of reason)) result) ground.old ground.new }
    ensures setting { G.setting ground.new ≡ G.setting ground.old }
    ensures phase { G.phase ground.new ≡ G.phase ground.old }
{
    if to.is_none() {
        return Ok(true);
    }
    match reason.refusal(ground.alloc()) {
        Ok(refusal) => refuse(ground, call.name(), to, refusal),
        Err(_) => Err(DeskFault::NoMemory),
    }
}
