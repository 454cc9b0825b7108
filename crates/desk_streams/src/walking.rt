//! All streams are asked for their informations.

ghost use Rattle.std.specs.Prelude.{◌≡◌, ◌≤◌, ◌+◌, ◌++◌, [], None, vec_capacity, vec_len};
ghost use Rattle.place_engine.specs.Shown.{IsShown};
ghost use Rattle.js_api.specs.AllStreams.{behind, info_in};
ghost use Rattle.js_api.specs.Leading.{Makes};
ghost use Rattle.desk_answers.specs.StreamInfos.{AreSound};
ghost use Rattle.desk_ground.specs.Grounds.{IsWithin, Outside};
ghost use Rattle.desk_answers.specs.Became.{CanBeShown};
ghost use Rattle.desk_streams.specs.Walking.{AddsSound, AreSoundTo, IsVisit, IsVisitTold, IsWalk, further, most_to};

use desk_ground::{Ground, Reason};
use js_api::{Became, DeskFault, Outcome};
use js_base::Moment;
use js_model::{LAST_PLACE, PlaceAt, Reply, StreamInfo, What};

/// The place after which the next look-up begins: the last one at first.
fn behind(last: Option<PlaceAt>) -> u32
    ensures value { result ≡ behind last }
{
    match last {
        Some(at) => at.place,
        None => LAST_PLACE,
    }
}

/// The place that was found, if it is a further one, and not the first again.
fn further(last: Option<PlaceAt>, found: Option<PlaceAt>) -> Option<PlaceAt>
    ensures value { result ≡ further last found }
{
    match (last, found) {
        (Some(before), Some(at)) if at.place <= before.place => None,
        _ => found,
    }
}

/// Adds the information of a reply, if it is one.
fn add_info(reply: Reply, infos: &mut Vec<StreamInfo>)
    requires shown { IsShown reply }
    requires room { vec_len infos.old + 1 ≤ vec_capacity infos.old }
    ensures added { infos.new.items ≡ infos.old.items ++ info_in reply }
    ensures sound { AddsSound infos.old.items infos.new.items }
{
    match reply {
        Reply::Info(info) => infos.push_reserved(info),
        Reply::Done
        | Reply::Published(_)
        | Reply::Duplicate(_)
        | Reply::Purged(_)
        | Reply::ConsumerInfo(_)
        | Reply::Message(_)
        | Reply::Names { .. }
        | Reply::Infos { .. }
        | Reply::Confirmed
        | Reply::Silent
        | Reply::Nobody
        | Reply::Refused(_) => {}
    }
}

/// Adds the information that a hold told, if it told one, and answers by which failure the call is refused.
fn add_told(outcome: Outcome, infos: &mut Vec<StreamInfo>) -> Result<Option<Reason>, DeskFault>
    requires shown { CanBeShown outcome.became }
    requires room { vec_len infos.old + 1 ≤ vec_capacity infos.old }
    ensures told { IsVisitTold result outcome infos.old.items infos.new.items }
    ensures sound { AddsSound infos.old.items infos.new.items }
{
    if let Some(fault) = outcome.fault {
        return Err(fault);
    }
    match outcome.became {
        Became::Made(reply) => {
            add_info(reply, infos);
            Ok(None)
        }
        Became::Broke { stream: _ } => Ok(Some(Reason::StoreFault)),
        Became::Stopped { stream: _ } => Ok(Some(Reason::StreamStopped)),
        Became::Unsaid { refused: _ } | Became::Ticked | Became::Nothing | Became::Gone => Ok(None),
    }
}

/// Asks the stream of a place for its information, and adds it if there is one.
fn visit<G: Ground>(
    ground: &mut G,
    at: PlaceAt,
    infos: &mut Vec<StreamInfo>,
    now: Moment,
) -> Result<Option<Reason>, DeskFault>
    requires within { IsWithin (G.setting ground.old) at }
    requires room { vec_len infos.old + 1 ≤ vec_capacity infos.old }
    ensures made { Makes G.made (IsVisit at now result infos.old.items infos.new.items) ground.old ground.new }
    ensures sound { AddsSound infos.old.items infos.new.items }
    ensures setting { G.setting ground.new ≡ G.setting ground.old }
    ensures phase { G.phase ground.new ≡ G.phase ground.old }
{
    let outcome = ground.hold(at, What::StreamInfo { reply: None }, now);
    add_told(outcome, infos)
}

/// Visits the used places after the last one, in their order.
fn walk_behind<G: Ground>(
    ground: &mut G,
    last: Option<PlaceAt>,
    infos: &mut Vec<StreamInfo>,
    now: Moment,
) -> Result<Option<Reason>, DeskFault>
    requires outside { G.phase ground.old ≡ Outside }
    requires last { most_to last ≤ 32 }
    requires sound { AreSoundTo last infos.old.items }
    ensures made { Makes G.made (IsWalk now last result infos.old.items infos.new.items) ground.old ground.new }
    ensures sound { AreSound infos.new.items }
    ensures setting { G.setting ground.new ≡ G.setting ground.old }
    ensures phase { G.phase ground.new ≡ Outside }
{
    if infos.reserve(1).is_err() {
        return Err(DeskFault::NoMemory);
    }
    let found = ground.next_used(behind(last))?;
    let Some(at) = further(last, found) else {
        return Ok(None);
    };
    match visit(ground, at, infos, now)? {
        None => walk_behind(ground, Some(at), infos, now),
        Some(reason) => Ok(Some(reason)),
    }
}

/// Adds the informations of all streams, in the order of their places, and answers by which failure the call is refused: the volume of a place failed,
/// or it was stopped before.
pub fn walk<G: Ground>(
    ground: &mut G,
    infos: &mut Vec<StreamInfo>,
    now: Moment,
) -> Result<Option<Reason>, DeskFault>
    requires outside { G.phase ground.old ≡ Outside }
    requires empty { infos.old.items ≡ [] }
    ensures made { Makes G.made (IsWalk now None result [] infos.new.items) ground.old ground.new }
    ensures sound { AreSound infos.new.items }
    ensures setting { G.setting ground.new ≡ G.setting ground.old }
    ensures phase { G.phase ground.new ≡ Outside }
{
    walk_behind(ground, None, infos, now)
}
