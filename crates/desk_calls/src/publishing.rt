//! What becomes of a client's message.

ghost use Rattle.std.specs.Prelude.{◌≡◌, ℕ, Err, IsUtf8, Ok, Some, true};
ghost use Rattle.api_requests.specs.Read.{IsRead};
ghost use Rattle.ack_parse.specs.Reading.{ack_of};
ghost use Rattle.js_model.specs.declared.event.What.TheVariants as whats;
ghost use Rattle.desk_answers.specs.Asking.{MayAsk};
ghost use Rattle.js_base.specs.Names.{name_of};
ghost use Rattle.js_base.specs.ServerSubjects.{is_acknowledgement, is_api};
ghost use Rattle.js_api.specs.Answering.{Publish as PublishIt, took};
ghost use Rattle.js_api.specs.Api.{IsAsked, PublishesAck, PublishesToApi, TakesByApi};
ghost use Rattle.js_api.specs.Calls.{Does, Publishes};
ghost use Rattle.js_api.specs.Leading.{Makes};
ghost use Rattle.js_api.specs.Publishing.{IsMessage};
ghost use Rattle.desk_ground.specs.Callers.{client_of};
ghost use Rattle.desk_ground.specs.Grounds.{Outside};

use crate::api::carry_out;
use ack_parse::{AckFault, read_ack};
use desk_answers::NOBODY;
use desk_ground::{Caller, Ground, refuse};
use desk_messaging::{acknowledge, publish_plain, tell_untaken};
use js_api::{ApiFault, ApiRequest, DeskFault, call_name, read_request};
use js_base::{ApiError, Moment, Name, Out};
use js_model::{Ack, Taken};
use subject_match::{is_acknowledgement, is_api};

/// A message that the API took.
const BY_API: Taken = Taken {
    subscriptions: 0,
    other: true,
};

// ---- to the API

/// Answers that the API took the message, or tells its client that nobody did.
fn taken_by_api<G: Ground>(
    ground: &mut G,
    caller: Caller,
    message: &Out,
    taken: bool,
) -> Result<Taken, DeskFault>
    ensures made { Makes G.made (TakesByApi (client_of caller) message.now taken result) ground.old ground.new }
    ensures setting { G.setting ground.new ≡ G.setting ground.old }
    ensures phase { G.phase ground.new ≡ G.phase ground.old }
{
    if taken {
        Ok(BY_API)
    } else {
        tell_untaken(ground, caller, message, NOBODY)
    }
}

/// Carries out a call that was read.
fn publish_call<G: Ground>(
    ground: &mut G,
    caller: Caller,
    message: &Out,
    request: ApiRequest,
    now: Moment,
) -> Result<Taken, DeskFault>
    requires outside { G.phase ground.old ≡ Outside }
    requires message { IsMessage message.now }
    requires read { IsRead request }
    ensures made { Makes G.made (IsAsked (client_of caller) message.now now (Some (Ok request)) result) ground.old ground.new }
    ensures setting { G.setting ground.new ≡ G.setting ground.old }
    ensures phase { G.phase ground.new ≡ Outside }
{
    let taken = carry_out(ground, request, &message.reply, now)?;
    taken_by_api(ground, caller, message, taken)
}

/// Refuses a call as it was read.
fn refuse_call<G: Ground>(
    ground: &mut G,
    caller: Caller,
    message: &Out,
    refusal: ApiError,
) -> Result<Taken, DeskFault>
    requires text { IsUtf8 refusal.text }
    ensures made { (now : ℕ) → Makes G.made (IsAsked (client_of caller) message.now now (Some (Err refusal)) result) ground.old ground.new }
    ensures setting { G.setting ground.new ≡ G.setting ground.old }
    ensures phase { G.phase ground.new ≡ G.phase ground.old }
{
    let name = call_name(message.to.as_slice());
    let taken = refuse(ground, name, &message.reply, refusal)?;
    taken_by_api(ground, caller, message, taken)
}

/// Reads the call of the API that the message is, carries it out and answers it. What is no call reaches nobody.
fn publish_to_api<G: Ground>(
    ground: &mut G,
    caller: Caller,
    message: &Out,
    now: Moment,
) -> Result<Taken, DeskFault>
    requires outside { G.phase ground.old ≡ Outside }
    requires message { IsMessage message.now }
    ensures made { Makes G.made (PublishesToApi (client_of caller) message.now now result) ground.old ground.new }
    ensures setting { G.setting ground.new ≡ G.setting ground.old }
    ensures phase { G.phase ground.new ≡ Outside }
{
    let to = message.to.as_slice();
    match read_request(ground.alloc(), to, message.payload.as_slice()) {
        Ok(Some(request)) => publish_call(ground, caller, message, request, now),
        Ok(None) => tell_untaken(ground, caller, message, NOBODY),
        Err(ApiFault::Refused(refusal)) => refuse_call(ground, caller, message, refusal),
        Err(ApiFault::NoMemory) => Err(DeskFault::NoMemory),
    }
}

// ---- acknowledgements

/// Hands an acknowledgement that was read to its stream.
fn hand_on<G: Ground>(
    ground: &mut G,
    caller: Caller,
    message: &Out,
    ack: &Ack,
    now: Moment,
) -> Result<Taken, DeskFault>
    requires outside { G.phase ground.old ≡ Outside }
    requires read { ack_of message.now.to message.now.payload ≡ Ok ack.now }
    requires named { name_of ack.now.stream ≡ Ok ack.now.stream }
    requires asked { MayAsk (whats.Ack message.now.reply ack.now) }
    ensures made { Makes G.made (PublishesAck (client_of caller) message.now now result) ground.old ground.new }
    ensures setting { G.setting ground.new ≡ G.setting ground.old }
    ensures phase { G.phase ground.new ≡ Outside }
{
    let stream = match Name::read(ground.alloc(), ack.stream.as_slice()) {
        Ok(stream) => stream,
        Err(_) => return Err(DeskFault::NoMemory),
    };
    let taken = acknowledge(ground, &stream, ack, &message.reply, now)?;
    taken_by_api(ground, caller, message, taken)
}

/// Reads the acknowledgement that the message is, and hands it to its stream.
fn publish_ack<G: Ground>(
    ground: &mut G,
    caller: Caller,
    message: &Out,
    now: Moment,
) -> Result<Taken, DeskFault>
    requires outside { G.phase ground.old ≡ Outside }
    requires message { IsMessage message.now }
    ensures made { Makes G.made (PublishesAck (client_of caller) message.now now result) ground.old ground.new }
    ensures setting { G.setting ground.new ≡ G.setting ground.old }
    ensures phase { G.phase ground.new ≡ Outside }
{
    let to = message.to.as_slice();
    match read_ack(ground.alloc(), to, message.payload.as_slice()) {
        Ok(ack) => hand_on(ground, caller, message, &ack, now),
        Err(AckFault::BadBody) => taken_by_api(ground, caller, message, true),
        Err(AckFault::NotAck) => taken_by_api(ground, caller, message, false),
        Err(AckFault::BadToken(_)) => taken_by_api(ground, caller, message, false),
        Err(AckFault::NoMemory) => Err(DeskFault::NoMemory),
    }
}

// ---- to any subject

/// Publishes a message by its subject.
fn publish_open<G: Ground>(
    ground: &mut G,
    caller: Caller,
    message: &Out,
    now: Moment,
) -> Result<Taken, DeskFault>
    requires outside { G.phase ground.old ≡ Outside }
    requires open { (G.setting ground.old).opened caller.session ≡ true }
    requires message { IsMessage message.now }
    ensures made { Makes G.made (Publishes (client_of caller) message.now now result) ground.old ground.new }
    ensures setting { G.setting ground.new ≡ G.setting ground.old }
    ensures phase { G.phase ground.new ≡ Outside }
{
    let to = message.to.as_slice();
    if is_api(to) {
        publish_to_api(ground, caller, message, now)
    } else if is_acknowledgement(to) {
        publish_ack(ground, caller, message, now)
    } else {
        publish_plain(ground, caller, message, now)
    }
}

/// Publishes a client's message, and answers who took it.
pub fn publish<G: Ground>(
    ground: &mut G,
    caller: Caller,
    message: &Out,
    now: Moment,
) -> Result<Taken, DeskFault>
    requires outside { G.phase ground.old ≡ Outside }
    requires open { caller.is_open ≡ true → (G.setting ground.old).opened caller.session ≡ true }
    requires message { IsMessage message.now }
    ensures made { Makes G.made (Does (client_of caller) (PublishIt message.now now) (took result)) ground.old ground.new }
    ensures setting { G.setting ground.new ≡ G.setting ground.old }
    ensures phase { G.phase ground.new ≡ Outside }
{
    if !caller.is_open {
        return Err(DeskFault::NoSession(caller.session));
    }
    publish_open(ground, caller, message, now)
}
