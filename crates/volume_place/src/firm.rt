//! Which steps are firm.

ghost use Rattle.std.specs.Prelude.{◌≡◌, Decides};
ghost use Rattle.js_model.specs.declared.stream.State.{State};
ghost use Rattle.js_model.specs.Firm.{Changes, IsFirmStep, is_confirmed, is_refusal, is_taken};

use js_model::{Reply, What};

/// What an event was answered, and whether it is firm. `None` if memory ran out before that was known.
#[derive(Drop)]
pub(crate) struct Answered {
    pub(crate) reply: Reply,
    pub(crate) firm: Option<bool>,
}

/// Whether an event that was answered so is firm, by which more than the moment changed or not of what outlives a crash.
pub(crate) fn is_firm(what: &What, reply: &Reply, changes: bool) -> bool
    ensures value { (old new : State) → Decides changes (Changes old new) → Decides result (IsFirmStep old what.now reply.now new) }
{
    match what {
        What::Publish(publish) => publish.reply.is_some() && is_taken(reply),
        What::Ack {
            reply: asked,
            ack: _,
        } => asked.is_some() && is_confirmed(reply),
        What::Tick => false,
        _ => changes && !is_refusal(reply),
    }
}

/// Whether a publish was taken, now or before.
fn is_taken(reply: &Reply) -> bool
    ensures value { result ≡ is_taken reply.now }
{
    matches!(reply, Reply::Published(_) | Reply::Duplicate(_))
}

/// Whether an acknowledgement was confirmed.
fn is_confirmed(reply: &Reply) -> bool
    ensures value { result ≡ is_confirmed reply.now }
{
    matches!(reply, Reply::Confirmed)
}

/// Whether the answer is a refusal.
fn is_refusal(reply: &Reply) -> bool
    ensures value { result ≡ is_refusal reply.now }
{
    matches!(reply, Reply::Refused(_))
}
