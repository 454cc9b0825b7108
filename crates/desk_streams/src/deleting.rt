//! The call that deletes a stream.

ghost use Rattle.std.specs.Prelude.{◌≡◌, ◌<◌, ◌^◌, IfSome, IsTrue, true, if◌then◌else◌};
ghost use Rattle.api_calls.specs.Names.{name_of};
ghost use Rattle.api_calls.specs.declared.call.ApiCall.TheVariants as calls;
ghost use Rattle.js_base.specs.Subjects.{is_subject_text};
ghost use Rattle.js_model.specs.Proper.{if_given};
ghost use Rattle.js_model.specs.declared.event.What.TheVariants as whats;
ghost use Rattle.js_api.specs.Holding.{Holds};
ghost use Rattle.js_api.specs.Leading.{Makes};
ghost use Rattle.js_api.specs.OneStream.{IsAbsent, IsDeleting, IsOnStream, free_if_dropped};
ghost use Rattle.desk_ground.specs.Grounds.{IsWithin, Knows, Outside, Owing, Within};
ghost use Rattle.desk_ground.specs.Named.{GoesOnNamed};
ghost use Rattle.desk_answers.specs.Became.{IsExplained, is_dropped};

use crate::freeing::free_if_dropped;
use desk_answers::copy_reply;
use desk_ground::{Ground, Reason, end_call, let_go, refuse_for, unmade};
use js_api::{ApiCall, DeskFault, Outcome};
use js_base::{Blob, Moment, Name};
use js_model::{PlaceAt, What};

/// Asks a stream to end.
fn ask_drop<G: Ground>(ground: &mut G, at: PlaceAt, to: &Option<Blob>, now: Moment) -> Outcome
    requires within { IsWithin (G.setting ground.old) at }
    requires to { IsTrue (if_given is_subject_text to.now) }
    requires turn { G.phase ground.old ≡ Within }
    ensures made { Makes G.made (Holds at (whats.Drop to.now) now result) ground.old ground.new }
    ensures explained { IsExplained result.fault result.became }
    ensures number { is_dropped result.became ≡ true → at.incarnation < 2 ^ 62 }
    ensures kept { G.kept ground.new ≡ G.kept ground.old }
    ensures setting { G.setting ground.new ≡ G.setting ground.old }
    ensures phase { G.phase ground.new ≡ (if is_dropped result.became then Owing at.place else Within) }
{
    match copy_reply(to) {
        Ok(reply) => ground.hold(at, What::Drop { reply }, now),
        Err(_) => unmade(),
    }
}

/// Drops the stream of a place, and frees the place if it is gone then.
fn drop_at<G: Ground>(
    ground: &mut G,
    at: PlaceAt,
    to: &Option<Blob>,
    now: Moment,
) -> Result<bool, DeskFault>
    requires within { IsWithin (G.setting ground.old) at }
    requires to { IsTrue (if_given is_subject_text to.now) }
    requires turn { G.phase ground.old ≡ Within }
    requires known { Knows (G.kept ground.old) at }
    ensures made { Makes G.made (IsOnStream (name_of calls.StreamDelete) at (whats.Drop to.now) now (free_if_dropped at) result) ground.old ground.new }
    ensures setting { G.setting ground.new ≡ G.setting ground.old }
    ensures phase { G.phase ground.new ≡ Within }
{
    let outcome = ask_drop(ground, at, to, now);
    free_if_dropped(ground, at, &outcome.became);
    let result = end_call(ground, ApiCall::StreamDelete, to, &outcome);
    let_go(outcome);
    result
}

/// Drops the stream that was looked up, if it is there.
fn drop_found<G: Ground>(
    ground: &mut G,
    found: Option<PlaceAt>,
    to: &Option<Blob>,
    now: Moment,
) -> Result<bool, DeskFault>
    requires within { IfSome found (IsWithin (G.setting ground.old)) }
    requires to { IsTrue (if_given is_subject_text to.now) }
    requires turn { G.phase ground.old ≡ Within }
    requires known { IfSome found (Knows (G.kept ground.old)) }
    ensures made { Makes G.made
        (GoesOnNamed (IsAbsent (name_of calls.StreamDelete) to.now)
        (λ at. IsOnStream (name_of calls.StreamDelete) at (whats.Drop to.now) now (free_if_dropped at)) found result) ground.old ground.new }
    ensures setting { G.setting ground.new ≡ G.setting ground.old }
    ensures phase { G.phase ground.new ≡ Within }
{
    match found {
        Some(at) => drop_at(ground, at, to, now),
        None => refuse_for(ground, ApiCall::StreamDelete, to, Reason::NoStream),
    }
}

/// Deletes the stream of this name.
pub fn delete_stream<G: Ground>(
    ground: &mut G,
    stream: &Name,
    to: &Option<Blob>,
    now: Moment,
) -> Result<bool, DeskFault>
    requires outside { G.phase ground.old ≡ Outside }
    requires to { IsTrue (if_given is_subject_text to.now) }
    ensures made { Makes G.made (IsDeleting stream.now to.now now result) ground.old ground.new }
    ensures setting { G.setting ground.new ≡ G.setting ground.old }
    ensures phase { G.phase ground.new ≡ Outside }
{
    let found = ground.begin(stream)?;
    let result = drop_found(ground, found, to, now);
    ground.end();
    result
}
