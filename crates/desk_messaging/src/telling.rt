//! What a publish is answered if its stream cannot take it, and what a client is told of its message.

ghost use Rattle.std.specs.Prelude.{◌≡◌, ◌<◌, IfOk, IsUtf8, OnErr, length};
ghost use Rattle.js_api.specs.Leading.{Makes};
ghost use Rattle.js_api.specs.OneStream.{Answers};
ghost use Rattle.js_api.specs.Publishing.{Tells, publish_refusal};
ghost use Rattle.js_api.specs.Stages.{Gives, Sends, Then};
ghost use Rattle.desk_ground.specs.Callers.{client_of};
ghost use Rattle.desk_ground.specs.Reasons.{error_of};

use desk_answers::{publish_refusal, untaken_outs};
use desk_ground::{Caller, Ground, Reason, answer_by, send_all};
use js_api::DeskFault;
use js_base::{Blob, List, NoMemory, Out, Outs};
use js_model::Taken;
use std::alloc::Global;

// ---- the answer to a publish

/// The message that refuses a publish to the stream of this name for this reason, or no message if there is no subject for it. An `Err` comes only
/// if there is one.
fn publish_refusal_outs(
    alloc: Global,
    to: &Option<Blob>,
    stream: &Blob,
    reason: Reason,
) -> Result<Outs, NoMemory>
    requires utf8 { IsUtf8 stream.now }
    ensures outs { IfOk result (λ outs. outs ≡ publish_refusal to.now stream.now (error_of reason)) }
    ensures err { OnErr result (0 < length (publish_refusal to.now stream.now (error_of reason))) }
{
    if to.is_none() {
        return Ok(List::new(alloc));
    }
    let refusal = reason.refusal(alloc)?;
    publish_refusal(alloc, to, stream.as_slice(), refusal)
}

/// Refuses a publish, which so is taken.
pub fn refuse_publish<G: Ground>(
    ground: &mut G,
    to: &Option<Blob>,
    stream: &Blob,
    reason: Reason,
) -> Result<bool, DeskFault>
    requires utf8 { IsUtf8 stream.now }
    ensures made { Makes G.made (Answers (publish_refusal to.now stream.now (error_of reason)) result) ground.old ground.new }
    ensures setting { G.setting ground.new ≡ G.setting ground.old }
    ensures phase { G.phase ground.new ≡ G.phase ground.old }
{
    match publish_refusal_outs(ground.alloc(), to, stream, reason) {
        Ok(outs) => answer_by(ground, outs.as_slice()),
        Err(_) => Err(DeskFault::NoMemory),
    }
}

// ---- what a client is told

/// Tells a client by these messages who took its message.
fn tell_by<G: Ground>(ground: &mut G, outs: &[Out], taken: Taken) -> Result<Taken, DeskFault>
    ensures made { Makes G.made (Then (Sends outs.now) (λ _. Gives taken) result) ground.old ground.new }
    ensures setting { G.setting ground.new ≡ G.setting ground.old }
    ensures phase { G.phase ground.new ≡ G.phase ground.old }
{
    send_all(ground, outs)?;
    Ok(taken)
}

/// Answers who took a message, and tells its client if nobody did, unless this client is not told so.
pub fn tell_untaken<G: Ground>(
    ground: &mut G,
    caller: Caller,
    message: &Out,
    taken: Taken,
) -> Result<Taken, DeskFault>
    ensures made { Makes G.made (Tells (client_of caller) message.now taken result) ground.old ground.new }
    ensures setting { G.setting ground.new ≡ G.setting ground.old }
    ensures phase { G.phase ground.new ≡ G.phase ground.old }
{
    match untaken_outs(ground.alloc(), caller.told, message, taken) {
        Ok(outs) => tell_by(ground, outs.as_slice(), taken),
        Err(_) => Err(DeskFault::NoMemory),
    }
}
