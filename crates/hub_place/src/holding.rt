//! A hold on a place in one turn of it.

ghost use Rattle.std.specs.Prelude.{◌≡◌};
ghost use Rattle.js_api.specs.Holding.{Holds};
ghost use Rattle.js_api.specs.Leading.{Makes};
ghost use Rattle.desk_answers.specs.Asking.{MayAsk};
ghost use Rattle.desk_answers.specs.Became.{CanBeShown, IsExplained, NumbersDropped};
ghost use Rattle.place_engine.specs.Stepping.{IsKept};
ghost use Rattle.hub_place.specs.Holds.{HoldsBySeat, IsMadeBy, SendsTo, unmade};

use crate::kind::PlaceKind;
use crate::next_timers::Timers;
use crate::place::HubPlace;
use crate::port::RouterPort;
use desk_hold::hold_on;
use histories::Past;
use hub_fronts::ticket_of;
use hub_router::RouterKind;
use js_api::{Became, DeskFault, Outcome};
use js_base::Moment;
use js_model::{PlaceAt, What};
use place_engine::Place;
use route_core::Router;
use std::alloc::Global;
use std::marker::PhantomData;
use std::snapshot::Snapshot;
use std::sync::Wait;
use turn_lock::{Entries, Fits, Held, Noted, Seat, Turns};

// A hold that came to this, and the place with its port as it was before and is now.
#[derive(Drop)]
struct HoldMade<'a, P: Place> {
    number: &'a Noted<u64>,
    at: PlaceAt,
    what: &'a Snapshot<What>,
    now: Moment,
    outcome: &'a Outcome,
    before: &'a Snapshot<HubPlace<P>>,
    after: &'a HubPlace<P>,
}

struct EntriesMade<P> {
    place: PhantomData<P>,
}

impl<'a, P: Place> Fits<HoldMade<'a, P>, Past> for EntriesMade<P> {
    ghost fits = { λ m entries. IsMadeBy P.holds P.room_causes.outgrows_log m.at m.number.now.value m.what.now.value m.now m.outcome.now (P.seen m.before.now.value.place) (P.seen m.after.now.place) m.before.now.value.port m.after.now.port entries };
}

/// Asks this of the stream of a place at a moment, in a turn of this seat, and sends all that this sends by the port of the place before the turn is left.
/// Then it tells when somebody has to let time pass there. Its entries are those of the desk that asks, and what they made at the place is left there with the seat's number. If all tickets of the place are
/// drawn, nothing is made, and the fault tells the one that is never drawn, 2^62.
pub fn hold_at<P: Place, W: Wait>(
    rt: &W,
    alloc: Global,
    place: &Turns<HubPlace<P>, PlaceKind<P>>,
    router: &Turns<Router, RouterKind>,
    timers: &Timers,
    seat: Seat<PlaceKind<P>>,
    at: PlaceAt,
    what: What,
    now: Moment,
) -> (Outcome, Seat<PlaceKind<P>>)
    requires own { seat.lock ≡ place.now.lock }
    requires port { SendsTo seat.opening router.now.lock }
    requires asked { MayAsk what }
    ensures made { Makes (HoldsBySeat at) (Holds at what now result.0) seat result.1 }
    ensures shown { CanBeShown result.0.became }
    ensures explained { IsExplained result.0.fault result.0.became }
    ensures number { NumbersDropped what result.0.became at }
{
    match place.enter(rt, seat) {
        Ok(Held { value, seat }) => {
            let number = seat.number();
            timers.begin(at.place);
            let (outcome, value, entries) = hold_by(
                rt, alloc, router, value, &number, at, what, now,
            );
            timers.end(at.place, &value.place, &outcome);
            (outcome, place.leave(Held { value, seat }, entries))
        }
        Err((fault, seat)) => (unmade(ticket_of(fault)), seat),
    }
}

/// What a hold comes to if all tickets of its place are drawn, and this is the one that is never drawn.
fn unmade(ticket: u64) -> Outcome
    ensures value { result ≡ unmade ticket }
{
    Outcome {
        became: Became::Nothing,
        ready: false,
        fault: Some(DeskFault::Worn(ticket)),
    }
}

/// Holds a place by its port, and notes the entries that a seat of this number leaves.
fn hold_by<P: Place, W: Wait>(
    rt: &W,
    alloc: Global,
    router: &Turns<Router, RouterKind>,
    hub: HubPlace<P>,
    number: &Noted<u64>,
    at: PlaceAt,
    what: What,
    now: Moment,
) -> (Outcome, HubPlace<P>, Entries)
    requires own { hub.port.lock ≡ router.now.lock }
    requires asked { MayAsk what }
    ensures made { IsMadeBy P.holds P.room_causes.outgrows_log at number.now.value what now result.0 (P.seen hub.place) (P.seen result.1.place) hub.port result.1.port result.2.value }
    ensures kept { IsKept P.holds (P.seen result.1.place) }
    ensures vol { P.keeps_vol (P.vol hub.place) (P.vol result.1.place) }
    ensures shown { CanBeShown result.0.became }
    ensures explained { IsExplained result.0.fault result.0.became }
    ensures number { NumbersDropped what result.0.became at }
{
    let asked = Snapshot::of(&what);
    let before = Snapshot::of(&hub);
    let HubPlace { mut place, port } = hub;
    let mut port = RouterPort::of(rt, router, port);
    let outcome = hold_on(alloc, &mut place, &mut port, at, what, now);
    place.law_kept();
    let after = HubPlace {
        place,
        port: port.into_seat(),
    };
    let entries = Entries::some::<HoldMade<P>, EntriesMade<P>>(&HoldMade {
        number,
        at,
        what: &asked,
        now,
        outcome: &outcome,
        before: &before,
        after: &after,
    });
    (outcome, after, entries)
}
