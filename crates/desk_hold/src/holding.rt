//! One hold on a place: an event is made there, its consumers are served, and what all this sends goes to the port.

ghost use Rattle.std.specs.Prelude.{◌≡◌, ◌≤◌, ◌^◌, ℕ, false, None, IsUtf8};
ghost use Rattle.std.specs.Option.{option_or};
ghost use Rattle.js_api.specs.declared.outcome.Became.TheVariants.{Made};
ghost use Rattle.js_api.specs.Outputs.{stream_name};
ghost use Rattle.js_model.specs.Events.{kept_incarnation};
ghost use Rattle.js_model.specs.declared.desk.PlaceAt.{PlaceAt};
ghost use Rattle.js_api.specs.Holding.{event_at};
ghost use Rattle.place_engine.specs.Shown.{IsShown};
ghost use Rattle.desk_answers.specs.Asking.{MayAsk};
ghost use Rattle.desk_answers.specs.Became.{CanBeShown, IsExplained, NumbersDropped, is_dropped};
ghost use Rattle.desk_hold.specs.OnePlace.{HoldsOn};
ghost use Rattle.desk_hold.specs.Following.{Follows};
ghost use Rattle.desk_hold.specs.Outcomes.{SendsFollowed, SendsMade, absent_by, failed_by, quietly, shortly, worn_out};
ghost use Rattle.desk_hold.specs.Steps.{IsNumbered};

use crate::following::{Following, LAST_GENERATION, failed, follow};
use crate::port::Port;
use crate::sending::{fault_of, send_all};
use crate::stepping::{MadeStep, make, stream_name};
use js_api::{Became, DeskFault, Outcome};
use js_base::{Blob, List, Moment, Out, Outs};
use js_model::{Event, PlaceAt, What};
use place_engine::{Left, Place, PlaceFault};
use std::alloc::Global;

/// Streams have incarnations below it.
const INCARNATIONS_END: u64 = 1 << 62;

/// A hold in which memory ran out.
fn shortly(became: Became) -> Outcome
    ensures value { result ≡ shortly became }
{
    Outcome {
        became,
        ready: false,
        fault: Some(DeskFault::NoMemory),
    }
}

/// A hold in which the numbers of the store's generations were used up.
fn worn_out(became: Became) -> Outcome
    ensures value { result ≡ worn_out became }
{
    Outcome {
        became,
        ready: false,
        fault: Some(DeskFault::Worn(LAST_GENERATION)),
    }
}

/// A hold after which the call goes on, and no consumer is ready.
fn quietly(became: Became) -> Outcome
    ensures value { result ≡ quietly became }
{
    Outcome {
        became,
        ready: false,
        fault: None,
    }
}

/// What follows a step that was made: its answer is told first, so nothing follows if memory ran out for that.
fn follow_step<P: Place, R: Port>(
    alloc: Global,
    place: &mut P,
    port: &mut R,
    unsaid: bool,
    now: Moment,
    outs: &mut Outs,
) -> Following
    requires going { (P.seen place.old).place.stopped ≡ None }
    ensures follows { (seat : ℕ) (at : PlaceAt) → Follows R.routes R.worn seat at now P.holds result (P.seen place.old) (P.seen place.new) port.old port.new outs.old outs.new }
    ensures vol { P.keeps_vol (P.vol place.old) (P.vol place.new) }
{
    if unsaid {
        place.law_kept();
        return failed(DeskFault::NoMemory);
    }
    follow(alloc, place, port, now, outs)
}

/// Sends what a step and what followed it added.
fn finish<R: Port>(port: &mut R, outs: &[Out], step: MadeStep, following: Following) -> Outcome
    requires shown { IsShown step.reply }
    ensures became { result.became ≡ Made step.reply }
    ensures sends { SendsFollowed R.routes R.worn following step.unsaid result outs.now port.old port.new }
    ensures shown { CanBeShown result.became }
    ensures explained { IsExplained result.fault result.became }
{
    match following {
        Following::Heard { ready, fault } => {
            let sent = send_all(port, outs);
            Outcome {
                became: Became::Made(step.reply),
                ready,
                fault: first_of(fault, fault_of(sent, step.unsaid)),
            }
        }
        Following::Unheard(number) => Outcome {
            became: Became::Made(step.reply),
            ready: false,
            fault: Some(DeskFault::Worn(number)),
        },
    }
}

/// The first of two faults, if there is one.
fn first_of(first: Option<DeskFault>, next: Option<DeskFault>) -> Option<DeskFault>
    ensures value { result ≡ option_or first next }
{
    match first {
        Some(fault) => Some(fault),
        None => next,
    }
}

/// Sends what a failed step added, and tells what it came to at the stream of this name.
fn fail<R: Port>(port: &mut R, outs: &[Out], fault: PlaceFault, stream: Blob) -> Outcome
    requires utf8 { IsUtf8 stream }
    ensures value { result ≡ failed_by fault stream }
    ensures sends { SendsMade R.routes R.worn fault outs.now port.old port.new }
    ensures shown { CanBeShown result.became }
    ensures explained { IsExplained result.fault result.became }
{
    match fault {
        PlaceFault::NoMemory(Left::Nothing) => shortly(Became::Nothing),
        PlaceFault::NoMemory(Left::Ticked) => {
            let _ = send_all(port, outs);
            shortly(Became::Ticked)
        }
        PlaceFault::NoMemory(Left::Unsaid { refused }) => {
            let _ = send_all(port, outs);
            shortly(Became::Unsaid { refused })
        }
        PlaceFault::Worn { refused } => {
            let _ = send_all(port, outs);
            worn_out(Became::Unsaid { refused })
        }
        PlaceFault::StoreFault => quietly(Became::Broke { stream }),
        PlaceFault::Stopped(_) => quietly(Became::Stopped { stream }),
        PlaceFault::Gone(_) => quietly(Became::Gone),
    }
}

/// Makes the event on a place whose stream has this name. The step decides whether the place is stopped, and whether it keeps another incarnation.
fn hold_named<P: Place, R: Port>(
    alloc: Global,
    place: &mut P,
    port: &mut R,
    at: PlaceAt,
    event: &Event,
    stream: Blob,
    now: Moment,
) -> Outcome
    requires event { event.now ≡ event_at at event.now.what }
    requires asked { MayAsk event.now.what }
    requires small { at.incarnation ≤ 2 ^ 62 }
    requires stream { stream ≡ stream_name (P.seen place.old).place.state }
    requires utf8 { IsUtf8 stream }
    requires numbered { IsNumbered (P.seen place.old).place.state }
    ensures holds { (seat : ℕ) → HoldsOn R.routes R.worn at P.holds P.room_causes.outgrows_log seat event.now.what now result (P.seen place.old) (P.seen place.new) port.old port.new }
    ensures shown { CanBeShown result.became }
    ensures explained { IsExplained result.fault result.became }
    ensures number { NumbersDropped event.now.what result.became at }
    ensures vol { P.keeps_vol (P.vol place.old) (P.vol place.new) }
{
    let mut outs = List::new(alloc);
    place.law_kept();
    let made = make(alloc, place, stream.as_slice(), event, now, &mut outs);
    place.law_kept();
    match made {
        Ok(step) => {
            let following = follow_step(alloc, place, port, step.unsaid, now, &mut outs);
            finish(port, outs.as_slice(), step, following)
        }
        Err(fault) => fail(port, outs.as_slice(), fault, stream),
    }
}

/// What a hold comes to that asks for an incarnation above 2^62, which no place keeps.
fn absent<P: Place>(place: &P, stream: Blob) -> Outcome
    requires utf8 { IsUtf8 stream }
    ensures value { result ≡ absent_by (P.seen place.now).place.stopped stream }
    ensures kept { kept_incarnation (P.seen place.now).place.state ≤ 2 ^ 62 }
    ensures shown { CanBeShown result.became }
    ensures explained { IsExplained result.fault result.became }
    ensures stays { is_dropped result.became ≡ false }
{
    let _ = place.incarnation();
    match place.stopped() {
        Some(_) => quietly(Became::Stopped { stream }),
        None => quietly(Became::Gone),
    }
}

/// Makes the event for the stream of a place.
fn hold_event<P: Place, R: Port>(
    alloc: Global,
    place: &mut P,
    port: &mut R,
    at: PlaceAt,
    event: &Event,
    now: Moment,
) -> Outcome
    requires event { event.now ≡ event_at at event.now.what }
    requires asked { MayAsk event.now.what }
    ensures holds { (seat : ℕ) → HoldsOn R.routes R.worn at P.holds P.room_causes.outgrows_log seat event.now.what now result (P.seen place.old) (P.seen place.new) port.old port.new }
    ensures shown { CanBeShown result.became }
    ensures explained { IsExplained result.fault result.became }
    ensures number { NumbersDropped event.now.what result.became at }
    ensures vol { P.keeps_vol (P.vol place.old) (P.vol place.new) }
{
    place.law_kept();
    let stream = match stream_name(place) {
        Ok(stream) => stream,
        Err(_) => return shortly(Became::Nothing),
    };
    if at.incarnation > INCARNATIONS_END {
        return absent(place, stream);
    }
    hold_named(alloc, place, port, at, event, stream, now)
}

/// Asks this of the stream of a place at a moment, and sends by the port all that this sends. What came of it is told as a desk's entry; nothing is
/// done if the place is stopped, keeps another incarnation, or memory runs out first.
pub fn hold_on<P: Place, R: Port>(
    alloc: Global,
    place: &mut P,
    port: &mut R,
    at: PlaceAt,
    what: What,
    now: Moment,
) -> Outcome
    requires asked { MayAsk what }
    ensures holds { (seat : ℕ) → HoldsOn R.routes R.worn at P.holds P.room_causes.outgrows_log seat what now result (P.seen place.old) (P.seen place.new) port.old port.new }
    ensures shown { CanBeShown result.became }
    ensures explained { IsExplained result.fault result.became }
    ensures number { NumbersDropped what result.became at }
    ensures vol { P.keeps_vol (P.vol place.old) (P.vol place.new) }
{
    let event = Event {
        incarnation: at.incarnation,
        what,
    };
    hold_event(alloc, place, port, at, &event, now)
}
