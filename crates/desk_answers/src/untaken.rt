//! What a client is told if nobody took its message.

ghost use Rattle.std.specs.Prelude.{◌≡◌, ◌<◌, true, length, IfOk, OnErr};
ghost use Rattle.js_api.specs.Publishing.{is_untaken, no_responders, told_nobody, untaken_outs};

use js_base::{Blob, List, NoMemory, Out, Outs};
use js_model::Taken;
use nats_headers::write_status;
use std::alloc::Global;

/// A message that reached nobody.
pub const NOBODY: Taken = Taken {
    subscriptions: 0,
    other: false,
};

/// Whether neither a subscription nor anything else took a message.
fn is_untaken(taken: Taken) -> bool
    ensures value { result ≡ is_untaken taken }
{
    taken.subscriptions == 0 && !taken.other
}

/// The message that tells a reply subject that nobody took what was published.
fn no_responders(alloc: Global, to: &Blob) -> Result<Out, NoMemory>
    ensures out { IfOk result (λ out. out ≡ no_responders to.now) }
{
    Ok(Out {
        to: to.clone()?,
        subject: to.clone()?,
        reply: None,
        headers: write_status(alloc, 503, b"", &[])?,
        payload: Blob::empty(),
    })
}

/// That message, if there is a reply subject.
fn told_nobody(alloc: Global, reply: &Option<Blob>) -> Result<Outs, NoMemory>
    ensures outs { IfOk result (λ outs. outs ≡ told_nobody true reply.now) }
    ensures err { OnErr result (0 < length (told_nobody true reply.now)) }
{
    let mut outs = List::new(alloc);
    match reply {
        Some(to) => {
            outs.push(no_responders(alloc, to)?)?;
            Ok(outs)
        }
        None => Ok(outs),
    }
}

/// The messages that tell a client that nobody took its message: none if somebody did, if this client is not told, or if there is no reply subject. An
/// `Err` comes only if there is one to tell.
pub fn untaken_outs(
    alloc: Global,
    told: bool,
    message: &Out,
    taken: Taken,
) -> Result<Outs, NoMemory>
    ensures outs { IfOk result (λ outs. outs ≡ untaken_outs told message.now taken) }
    ensures err { OnErr result (0 < length (untaken_outs told message.now taken)) }
{
    if told && is_untaken(taken) {
        told_nobody(alloc, &message.reply)
    } else {
        Ok(List::new(alloc))
    }
}
