//! The call that changes a stream's configuration.

ghost use Rattle.std.specs.Prelude.{◌≡◌, IfSome, IsTrue};
ghost use Rattle.api_calls.specs.Names.{name_of};
ghost use Rattle.api_calls.specs.declared.call.ApiCall.TheVariants as calls;
ghost use Rattle.api_requests.specs.Read.{IsSetup};
ghost use Rattle.js_base.specs.Subjects.{is_subject_text};
ghost use Rattle.js_model.specs.Cataloging.{HasPlace};
ghost use Rattle.js_model.specs.Proper.{if_given};
ghost use Rattle.js_model.specs.declared.event.What.TheVariants as whats;
ghost use Rattle.js_api.specs.Holding.{Holds};
ghost use Rattle.js_api.specs.Leading.{Makes};
ghost use Rattle.js_api.specs.OneStream.{IsAbsent, IsChanging, IsOnStream, IsUpdating, keep_subjects};
ghost use Rattle.desk_answers.specs.Asking.{MayAsk};
ghost use Rattle.desk_ground.specs.Grounds.{Between, IsBetween, IsWithin, Knows, Outside, Within};
ghost use Rattle.desk_ground.specs.Named.{GoesOnNamed};
ghost use Rattle.desk_answers.specs.Became.{IsExplained};

use crate::freeing::keep_subjects;
use crate::refusing::end_refused;
use desk_answers::copy_reply;
use desk_ground::{Ground, Reason, end_call, let_go, refuse_for, unmade};
use js_api::{ApiCall, DeskFault, Outcome};
use js_base::{Blob, Moment, Name};
use js_model::{PlaceAt, StreamConfig, What};

/// Asks a stream to take this configuration.
fn ask_change<G: Ground>(
    ground: &mut G,
    at: PlaceAt,
    to: &Option<Blob>,
    config: StreamConfig,
    now: Moment,
) -> Outcome
    requires within { IsWithin (G.setting ground.old) at }
    requires asked { MayAsk (whats.Change to.now config) }
    ensures made { Makes G.made (Holds at (whats.Change to.now config) now result) ground.old ground.new }
    ensures explained { IsExplained result.fault result.became }
    ensures kept { G.kept ground.new ≡ G.kept ground.old }
    ensures setting { G.setting ground.new ≡ G.setting ground.old }
    ensures phase { G.phase ground.new ≡ G.phase ground.old }
{
    match copy_reply(to) {
        Ok(reply) => ground.hold(at, What::Change { reply, config }, now),
        Err(_) => unmade(),
    }
}

/// Changes a stream that has its new subjects beside its old ones, and keeps those that it has then.
fn change_between<G: Ground>(
    ground: &mut G,
    at: PlaceAt,
    config: StreamConfig,
    to: &Option<Blob>,
    now: Moment,
) -> Result<bool, DeskFault>
    requires within { IsWithin (G.setting ground.old) at }
    requires asked { MayAsk (whats.Change to.now config) }
    requires turn { G.phase ground.old ≡ Between at.place }
    requires between { HasPlace (G.kept ground.old) at.place (IsBetween at) }
    ensures made { Makes G.made (IsOnStream (name_of calls.StreamUpdate) at (whats.Change to.now config) now (keep_subjects at) result) ground.old ground.new }
    ensures setting { G.setting ground.new ≡ G.setting ground.old }
    ensures phase { G.phase ground.new ≡ Within }
{
    let outcome = ask_change(ground, at, to, config, now);
    keep_subjects(ground, at, &outcome.became);
    let result = end_call(ground, ApiCall::StreamUpdate, to, &outcome);
    let_go(outcome);
    result
}

/// Changes the stream of a place.
fn change_at<G: Ground>(
    ground: &mut G,
    at: PlaceAt,
    config: StreamConfig,
    to: &Option<Blob>,
    now: Moment,
) -> Result<bool, DeskFault>
    requires within { IsWithin (G.setting ground.old) at }
    requires asked { MayAsk (whats.Change to.now config) }
    requires turn { G.phase ground.old ≡ Within }
    requires known { Knows (G.kept ground.old) at }
    ensures made { Makes G.made (IsChanging config to.now now at result) ground.old ground.new }
    ensures setting { G.setting ground.new ≡ G.setting ground.old }
    ensures phase { G.phase ground.new ≡ Within }
{
    match ground.change(at, config.subjects.as_slice()) {
        Ok(()) => change_between(ground, at, config, to, now),
        Err(fault) => end_refused(ground, ApiCall::StreamUpdate, to, fault),
    }
}

/// Changes the stream that was looked up, if it is there.
fn change_found<G: Ground>(
    ground: &mut G,
    found: Option<PlaceAt>,
    config: StreamConfig,
    to: &Option<Blob>,
    now: Moment,
) -> Result<bool, DeskFault>
    requires within { IfSome found (IsWithin (G.setting ground.old)) }
    requires asked { MayAsk (whats.Change to.now config) }
    requires turn { G.phase ground.old ≡ Within }
    requires known { IfSome found (Knows (G.kept ground.old)) }
    ensures made { Makes G.made
        (GoesOnNamed (IsAbsent (name_of calls.StreamUpdate) to.now) (IsChanging config to.now now) found result) ground.old ground.new }
    ensures setting { G.setting ground.new ≡ G.setting ground.old }
    ensures phase { G.phase ground.new ≡ Within }
{
    match found {
        Some(at) => change_at(ground, at, config, to, now),
        None => refuse_for(ground, ApiCall::StreamUpdate, to, Reason::NoStream),
    }
}

/// Changes the stream of this name.
pub fn update_stream<G: Ground>(
    ground: &mut G,
    stream: &Name,
    config: StreamConfig,
    to: &Option<Blob>,
    now: Moment,
) -> Result<bool, DeskFault>
    requires outside { G.phase ground.old ≡ Outside }
    requires to { IsTrue (if_given is_subject_text to.now) }
    requires setup { IsSetup stream.now config }
    ensures made { Makes G.made (IsUpdating stream.now config to.now now result) ground.old ground.new }
    ensures setting { G.setting ground.new ≡ G.setting ground.old }
    ensures phase { G.phase ground.new ≡ Outside }
{
    let found = ground.begin(stream)?;
    let result = change_found(ground, found, config, to, now);
    ground.end();
    result
}
