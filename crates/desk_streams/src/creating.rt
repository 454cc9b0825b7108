//! The call that creates a stream.

ghost use Rattle.std.specs.Prelude.{◌≡◌, true, IfSome, IsTrue};
ghost use Rattle.api_calls.specs.Names.{name_of};
ghost use Rattle.api_calls.specs.declared.call.ApiCall.TheVariants as calls;
ghost use Rattle.api_requests.specs.Read.{IsSetup};
ghost use Rattle.js_base.specs.Subjects.{is_subject_text};
ghost use Rattle.js_model.specs.Proper.{if_given};
ghost use Rattle.js_model.specs.declared.event.What.TheVariants as whats;
ghost use Rattle.js_api.specs.Holding.{Holds};
ghost use Rattle.js_api.specs.Leading.{Makes};
ghost use Rattle.js_api.specs.OneStream.{GoesOnAdded, IsAdding, IsCreating, IsOnStream, unchanged};
ghost use Rattle.desk_answers.specs.Asking.{MayAsk};
ghost use Rattle.desk_ground.specs.Grounds.{IsWithin, Knows, Outside, Within};
ghost use Rattle.desk_streams.specs.MakingAt.{IsMadeAt};
ghost use Rattle.desk_ground.specs.Named.{GoesOnNamed};
ghost use Rattle.desk_answers.specs.Became.{IsExplained};
ghost use Rattle.desk_ground.specs.Outcomes.{IsThere};

use crate::freeing::free_unless_made;
use crate::refusing::end_refused;
use desk_answers::copy_reply;
use desk_ground::{Ground, end_call, let_go, unmade};
use js_api::{ApiCall, DeskFault, Outcome};
use js_base::{Blob, Moment, Name};
use js_model::{PlaceAt, StreamConfig, What};

/// Asks the stream of a place, or the vacant place, to be made so.
fn ask_make<G: Ground>(
    ground: &mut G,
    at: PlaceAt,
    to: &Option<Blob>,
    config: StreamConfig,
    now: Moment,
) -> Outcome
    requires within { IsWithin (G.setting ground.old) at }
    requires asked { MayAsk (whats.Make to.now config) }
    ensures made { Makes G.made (Holds at (whats.Make to.now config) now result) ground.old ground.new }
    ensures explained { IsExplained result.fault result.became }
    ensures there { G.alone ≡ true → G.phase ground.old ≡ Within → Knows (G.kept ground.old) at → IsThere result.became }
    ensures kept { G.kept ground.new ≡ G.kept ground.old }
    ensures setting { G.setting ground.new ≡ G.setting ground.old }
    ensures phase { G.phase ground.new ≡ G.phase ground.old }
{
    match copy_reply(to) {
        Ok(reply) => ground.hold(at, What::Make { reply, config }, now),
        Err(_) => unmade(),
    }
}

/// Makes a stream at the place that was taken for it. The place is free again if none was made.
pub fn make_at<G: Ground>(
    ground: &mut G,
    at: PlaceAt,
    to: &Option<Blob>,
    config: StreamConfig,
    now: Moment,
) -> Outcome
    requires within { IsWithin (G.setting ground.old) at }
    requires asked { MayAsk (whats.Make to.now config) }
    requires turn { G.phase ground.old ≡ Within }
    requires known { Knows (G.kept ground.old) at }
    ensures made { Makes G.made (IsMadeAt at (whats.Make to.now config) now result) ground.old ground.new }
    ensures explained { IsExplained result.fault result.became }
    ensures there { G.alone ≡ true → IsThere result.became }
    ensures setting { G.setting ground.new ≡ G.setting ground.old }
    ensures phase { G.phase ground.new ≡ Within }
{
    let outcome = ask_make(ground, at, to, config, now);
    free_unless_made(ground, at, &outcome.became);
    outcome
}

/// Takes a place for a new stream, and makes it there.
fn add_stream<G: Ground>(
    ground: &mut G,
    stream: &Name,
    config: StreamConfig,
    to: &Option<Blob>,
    now: Moment,
) -> Result<bool, DeskFault>
    requires asked { MayAsk (whats.Make to.now config) }
    requires turn { G.phase ground.old ≡ Within }
    ensures made { Makes G.made (IsAdding stream.now config (GoesOnAdded config to.now now) result) ground.old ground.new }
    ensures setting { G.setting ground.new ≡ G.setting ground.old }
    ensures phase { G.phase ground.new ≡ Within }
{
    match ground.add(stream, config.subjects.as_slice()) {
        Ok(at) => {
            let outcome = make_at(ground, at, to, config, now);
            let result = end_call(ground, ApiCall::StreamCreate, to, &outcome);
            let_go(outcome);
            result
        }
        Err(fault) => end_refused(ground, ApiCall::StreamCreate, to, fault),
    }
}

/// Makes the stream that was looked up, unless it is there. One that is there answers whether it has this configuration.
fn create_found<G: Ground>(
    ground: &mut G,
    stream: &Name,
    found: Option<PlaceAt>,
    config: StreamConfig,
    to: &Option<Blob>,
    now: Moment,
) -> Result<bool, DeskFault>
    requires within { IfSome found (IsWithin (G.setting ground.old)) }
    requires asked { MayAsk (whats.Make to.now config) }
    requires turn { G.phase ground.old ≡ Within }
    ensures made { Makes G.made
        (GoesOnNamed (IsAdding stream.now config (GoesOnAdded config to.now now))
        (λ at. IsOnStream (name_of calls.StreamCreate) at (whats.Make to.now config) now unchanged) found result) ground.old ground.new }
    ensures setting { G.setting ground.new ≡ G.setting ground.old }
    ensures phase { G.phase ground.new ≡ Within }
{
    match found {
        Some(at) => {
            let outcome = ask_make(ground, at, to, config, now);
            let result = end_call(ground, ApiCall::StreamCreate, to, &outcome);
            let_go(outcome);
            result
        }
        None => add_stream(ground, stream, config, to, now),
    }
}

/// Creates the stream of this name.
pub fn create_stream<G: Ground>(
    ground: &mut G,
    stream: &Name,
    config: StreamConfig,
    to: &Option<Blob>,
    now: Moment,
) -> Result<bool, DeskFault>
    requires outside { G.phase ground.old ≡ Outside }
    requires to { IsTrue (if_given is_subject_text to.now) }
    requires setup { IsSetup stream.now config }
    ensures made { Makes G.made (IsCreating stream.now config to.now now result) ground.old ground.new }
    ensures setting { G.setting ground.new ≡ G.setting ground.old }
    ensures phase { G.phase ground.new ≡ Outside }
{
    let found = ground.begin(stream)?;
    let result = create_found(ground, stream, found, config, to, now);
    ground.end();
    result
}
