//! What becomes of a client's message to a subject of none of the server's own calls.

ghost use Rattle.std.specs.Prelude.{◌≡◌, ◌||◌, IfOk, IfSome, IsTrue, None, true};
ghost use Rattle.js_base.specs.Bytes.{is_empty};
ghost use Rattle.js_base.specs.Headers.{is_block};
ghost use Rattle.js_api.specs.Holding.{Holds};
ghost use Rattle.js_api.specs.Leading.{Makes};
ghost use Rattle.js_api.specs.Publishing.{IsMessage, IsReached, PublishesPlain, Stores, published};
ghost use Rattle.js_api.specs.Stages.{Ending};
ghost use Rattle.desk_ground.specs.Callers.{client_of};
ghost use Rattle.desk_ground.specs.Grounds.{IsWithin, Outside};
ghost use Rattle.desk_answers.specs.Became.{CanBeShown, IsExplained};
ghost use Rattle.desk_messaging.specs.Plain.{IsPlain};

use crate::telling::{refuse_publish, tell_untaken};
use desk_ground::{Caller, Ground, Reason, let_go, unmade};
use js_api::{Became, DeskFault, Outcome};
use js_base::{Moment, NoMemory, Out};
use js_model::{PlaceAt, Publish, Taken, What};
use publish_wants::read_wants;
use std::alloc::Global;

// ---- the stream of the subject

/// What a published message asks of its stream.
fn published(alloc: Global, message: &Out) -> Result<What, NoMemory>
    requires block { IsTrue (is_empty message.now.headers || is_block message.now.headers) }
    ensures what { IfOk result (λ what. what ≡ published message.now) }
{
    Ok(What::Publish(Publish {
        reply: message.reply.clone()?,
        subject: message.subject.clone()?,
        headers: message.headers.clone()?,
        payload: message.payload.clone()?,
        wants: read_wants(alloc, message.headers.as_slice())?,
    }))
}

/// Asks a stream to take the message.
fn ask_store<G: Ground>(ground: &mut G, at: PlaceAt, message: &Out, now: Moment) -> Outcome
    requires within { IsWithin (G.setting ground.old) at }
    requires message { IsMessage message.now }
    requires plain { IsPlain message.now.to }
    ensures made { Makes G.made (Holds at (published message.now) now result) ground.old ground.new }
    ensures explained { IsExplained result.fault result.became }
    ensures shown { CanBeShown result.became }
    ensures setting { G.setting ground.new ≡ G.setting ground.old }
    ensures phase { G.phase ground.new ≡ G.phase ground.old }
{
    match published(ground.alloc(), message) {
        Ok(what) => ground.hold(at, what, now),
        Err(_) => unmade(),
    }
}

/// Whether a stream took the message. If the hold broke, the server answers why.
fn reached<G: Ground>(ground: &mut G, message: &Out, became: &Became) -> Result<bool, DeskFault>
    requires explained { IsExplained None became.now }
    requires shown { CanBeShown became.now }
    ensures made { Makes G.made (IsReached message.now became.now result) ground.old ground.new }
    ensures setting { G.setting ground.new ≡ G.setting ground.old }
    ensures phase { G.phase ground.new ≡ G.phase ground.old }
{
    match became {
        Became::Made(_) => Ok(true),
        Became::Unsaid { refused: _ } => unreachable!(),
        Became::Ticked => unreachable!(),
        Became::Nothing => unreachable!(),
        Became::Broke { stream } => {
            refuse_publish(ground, &message.reply, stream, Reason::StoreFault)
        }
        Became::Stopped { stream } => {
            refuse_publish(ground, &message.reply, stream, Reason::StreamStopped)
        }
        Became::Gone => Ok(false),
    }
}

/// Goes on after a hold with the message, unless the call ended in it.
fn end_store<G: Ground>(ground: &mut G, message: &Out, outcome: &Outcome) -> Result<bool, DeskFault>
    requires explained { IsExplained outcome.now.fault outcome.now.became }
    requires shown { CanBeShown outcome.now.became }
    ensures made { Makes G.made (Ending outcome.now.fault (IsReached message.now outcome.now.became) result) ground.old ground.new }
    ensures setting { G.setting ground.new ≡ G.setting ground.old }
    ensures phase { G.phase ground.new ≡ G.phase ground.old }
{
    match outcome.fault {
        Some(fault) => Err(fault),
        None => reached(ground, message, &outcome.became),
    }
}

/// Stores the message in the stream that was found, if there is one, and answers whether a stream took it.
fn store<G: Ground>(
    ground: &mut G,
    message: &Out,
    found: Option<PlaceAt>,
    now: Moment,
) -> Result<bool, DeskFault>
    requires within { IfSome found (IsWithin (G.setting ground.old)) }
    requires message { IsMessage message.now }
    requires plain { IsPlain message.now.to }
    ensures made { Makes G.made (Stores message.now now found result) ground.old ground.new }
    ensures setting { G.setting ground.new ≡ G.setting ground.old }
    ensures phase { G.phase ground.new ≡ G.phase ground.old }
{
    match found {
        Some(at) => {
            let outcome = ask_store(ground, at, message, now);
            let result = end_store(ground, message, &outcome);
            let_go(outcome);
            result
        }
        None => Ok(false),
    }
}

// ---- to a plain subject

/// Publishes to the subscriptions, and then to the stream whose subjects match.
pub fn publish_plain<G: Ground>(
    ground: &mut G,
    caller: Caller,
    message: &Out,
    now: Moment,
) -> Result<Taken, DeskFault>
    requires outside { G.phase ground.old ≡ Outside }
    requires open { (G.setting ground.old).opened caller.session ≡ true }
    requires message { IsMessage message.now }
    requires plain { IsPlain message.now.to }
    ensures made { Makes G.made (PublishesPlain (client_of caller) message.now now result) ground.old ground.new }
    ensures setting { G.setting ground.new ≡ G.setting ground.old }
    ensures phase { G.phase ground.new ≡ Outside }
{
    let subscriptions = ground.publish(message, caller)?;
    let found = ground.find(message.to.as_slice())?;
    let other = store(ground, message, found, now)?;
    let taken = Taken {
        subscriptions,
        other,
    };
    tell_untaken(ground, caller, message, taken)
}
