//! The calls that list the streams: their names, or their informations.

ghost use Rattle.std.specs.Prelude.{◌≡◌};
ghost use Rattle.api_calls.specs.Names.{name_of};
ghost use Rattle.api_calls.specs.declared.call.ApiCall.TheVariants as calls;
ghost use Rattle.js_api.specs.AllStreams.{IsOverAll, informations, names};
ghost use Rattle.js_api.specs.Leading.{Makes};
ghost use Rattle.js_api.specs.OneStream.{Answers};
ghost use Rattle.desk_answers.specs.StreamInfos.{AreSound};
ghost use Rattle.desk_ground.specs.Grounds.{Outside};

use crate::walking::walk;
use desk_answers::{list_reply, names_reply};
use desk_ground::{Ground, answer, refuse_for};
use js_api::{ApiCall, DeskFault};
use js_base::{Blob, Moment};
use js_model::StreamInfo;

// ---- STREAM.NAMES

/// Answers by a page of the names of these streams.
fn answer_names<G: Ground>(
    ground: &mut G,
    offset: u64,
    pattern: &Option<Blob>,
    to: &Option<Blob>,
    infos: Vec<StreamInfo>,
) -> Result<bool, DeskFault>
    requires sound { AreSound infos.items }
    ensures made { Makes G.made (Answers (names to.now offset pattern.now infos.items) result) ground.old ground.new }
    ensures setting { G.setting ground.new ≡ G.setting ground.old }
    ensures phase { G.phase ground.new ≡ G.phase ground.old }
{
    if to.is_none() {
        return Ok(true);
    }
    match names_reply(ground.alloc(), offset, pattern, infos) {
        Ok(reply) => answer(ground, to, reply),
        Err(_) => Err(DeskFault::NoMemory),
    }
}

/// Lists the names of the streams.
pub fn list_names<G: Ground>(
    ground: &mut G,
    offset: u64,
    pattern: &Option<Blob>,
    to: &Option<Blob>,
    now: Moment,
) -> Result<bool, DeskFault>
    requires outside { G.phase ground.old ≡ Outside }
    ensures made { Makes G.made (IsOverAll (name_of calls.StreamNames) to.now now (names to.now offset pattern.now) result) ground.old ground.new }
    ensures setting { G.setting ground.new ≡ G.setting ground.old }
    ensures phase { G.phase ground.new ≡ Outside }
{
    let mut infos = Vec::new(ground.alloc());
    match walk(ground, &mut infos, now)? {
        None => answer_names(ground, offset, pattern, to, infos),
        Some(reason) => refuse_for(ground, ApiCall::StreamNames, to, reason),
    }
}

// ---- STREAM.LIST

/// Answers by a page of these informations.
fn answer_infos<G: Ground>(
    ground: &mut G,
    offset: u64,
    pattern: &Option<Blob>,
    to: &Option<Blob>,
    infos: Vec<StreamInfo>,
) -> Result<bool, DeskFault>
    requires sound { AreSound infos.items }
    ensures made { Makes G.made (Answers (informations to.now offset pattern.now infos.items) result) ground.old ground.new }
    ensures setting { G.setting ground.new ≡ G.setting ground.old }
    ensures phase { G.phase ground.new ≡ G.phase ground.old }
{
    if to.is_none() {
        return Ok(true);
    }
    match list_reply(ground.alloc(), offset, pattern, infos) {
        Ok(reply) => answer(ground, to, reply),
        Err(_) => Err(DeskFault::NoMemory),
    }
}

/// Lists the informations of the streams.
pub fn list_streams<G: Ground>(
    ground: &mut G,
    offset: u64,
    pattern: &Option<Blob>,
    to: &Option<Blob>,
    now: Moment,
) -> Result<bool, DeskFault>
    requires outside { G.phase ground.old ≡ Outside }
    ensures made { Makes G.made (IsOverAll (name_of calls.StreamList) to.now now (informations to.now offset pattern.now) result) ground.old ground.new }
    ensures setting { G.setting ground.new ≡ G.setting ground.old }
    ensures phase { G.phase ground.new ≡ Outside }
{
    let mut infos = Vec::new(ground.alloc());
    match walk(ground, &mut infos, now)? {
        None => answer_infos(ground, offset, pattern, to, infos),
        Some(reason) => refuse_for(ground, ApiCall::StreamList, to, reason),
    }
}
