//! An event is made on a place, and what it sends is put together.

ghost use Rattle.std.specs.Prelude.{◌≡◌, ◌<◌, ◌^◌, ◌++◌, IfOk, IsTrue, IsUtf8};
ghost use Rattle.js_api.specs.Outputs.{answer_of, said, stream_name};
ghost use Rattle.js_model.specs.Proper.{is_proper, is_proper_what};
ghost use Rattle.place_engine.specs.Places.{IsTold};
ghost use Rattle.place_engine.specs.Shown.{IsShown};
ghost use Rattle.desk_hold.specs.Crashes.{CommitsStep};
ghost use Rattle.desk_hold.specs.Rooms.{CommitsNothing, EndsRoom};
ghost use Rattle.desk_hold.specs.Steps.{EndsStep, IsNumbered};

use desk_answers::answer_of;
use js_base::{Blob, Moment, NoMemory, Outs};
use js_model::{Event, Reply, What};
use place_engine::{Left, Place, PlaceFault};
use std::alloc::Global;

/// An event that was made, its reply, and whether memory ran out for its answer.
#[derive(Drop)]
pub struct MadeStep {
    pub reply: Reply,
    pub unsaid: bool,
}

/// The name of the place's stream, empty if there is none.
pub fn stream_name<P: Place>(place: &P) -> Result<Blob, NoMemory>
    ensures name { IfOk result (λ name. name ≡ stream_name (P.seen place.now).place.state) }
    ensures utf8 { IfOk result (λ name. IsUtf8 name) }
    ensures number { IsNumbered (P.seen place.now).place.state }
{
    match place.name() {
        Some(name) => Ok(name.clone()?),
        None => Ok(Blob::empty()),
    }
}

/// Adds the answer after the outputs. `true` if memory ran out for it, and nothing was added.
fn add_answer(alloc: Global, stream: &[u8], what: &What, reply: &Reply, outs: &mut Outs) -> bool
    requires utf8 { IsUtf8 stream.now }
    requires shown { IsShown reply.now }
    ensures added { outs.new ≡ outs.old ++ said result (answer_of stream.now what.now reply.now) }
{
    match answer_of(alloc, stream, what, reply) {
        Ok(Some(answer)) => outs.push(answer).is_err(),
        Ok(None) => false,
        Err(_) => true,
    }
}

/// A moment is below 2^62.
pub fn law_moment(now: Moment)
    ensures bound { now < 2 ^ 62 }
{
    let _ = now.as_nanos();
}

/// Makes room for what is asked of a place, if there is some. `Err` if memory ran out; else a step at the place tells whether it is stopped, as it is if its
/// volume failed in this.
fn make_room<P: Place>(place: &mut P, what: &What) -> Result<(), NoMemory>
    requires proper { IsTrue (is_proper_what what.now) }
    ensures ends { EndsRoom P.room_causes.outgrows_log result what.now (P.seen place.old) (P.seen place.new) }
    ensures commits { CommitsNothing P.holds (P.seen place.old) (P.seen place.new) }
    ensures vol { P.keeps_vol (P.vol place.old) (P.vol place.new) }
{
    match place.prepare(what) {
        Ok(()) => Ok(()),
        Err(PlaceFault::NoMemory(_)) => Err(NoMemory),
        Err(PlaceFault::StoreFault) => Ok(()),
        Err(PlaceFault::Stopped(_)) => Ok(()),
        Err(PlaceFault::Gone(_)) => unreachable!(),
        Err(PlaceFault::Worn { refused: _ }) => unreachable!(),
    }
}

/// Makes the event on a place whose stream has this name, once room was made for it, and adds what it sends: its outputs, and its answer if one is asked for. An
/// `Err` says what was made in its place.
pub fn make<P: Place>(
    alloc: Global,
    place: &mut P,
    stream: &[u8],
    event: &Event,
    now: Moment,
    outs: &mut Outs,
) -> Result<MadeStep, PlaceFault>
    requires stream { stream.now ≡ stream_name (P.seen place.old).place.state }
    requires utf8 { IsUtf8 stream.now }
    requires told { IsTold event.now.what }
    requires proper { IsTrue (is_proper event.now) }
    ensures ends { EndsStep P.room_causes.outgrows_log result event.now now (P.seen place.old).place (P.seen place.new).place outs.old outs.new }
    ensures commits { CommitsStep P.holds result event.now (P.seen place.old) (P.seen place.new) }
    ensures shown { IfOk result (λ step. IsShown step.reply) }
    ensures vol { P.keeps_vol (P.vol place.old) (P.vol place.new) }
{
    law_moment(now);
    match make_room(place, &event.what) {
        Ok(()) => {}
        Err(_) => return Err(PlaceFault::NoMemory(Left::Nothing)),
    }
    match place.step(event, now, outs) {
        Ok(reply) => {
            let unsaid = add_answer(alloc, stream, &event.what, &reply, outs);
            Ok(MadeStep { reply, unsaid })
        }
        Err(fault) => Err(fault),
    }
}
