//! The deliveries of a hold.

ghost use Rattle.std.specs.Prelude.{◌≡◌, ◌<◌, ◌-◌, ◌^◌, ℕ, min, sum_by, None};
ghost use Rattle.js_api.specs.Holding.{bytes_of, most_bytes, most_deliveries};
ghost use Rattle.js_model.specs.declared.desk.PlaceAt.{PlaceAt};
ghost use Rattle.desk_hold.specs.Deliveries.{DeliversOn, GoesOn, ending_after, ending_by};

use crate::stepping::law_moment;
use js_base::{Moment, Out, Outs};
use js_model::{Delivery, Listening};
use place_engine::{Place, PlaceFault};

/// How many deliveries a hold makes at most.
const MOST_DELIVERIES: u32 = 256;

/// Once its outputs have so many bytes together, a hold makes no further delivery.
const MOST_BYTES: usize = 4 << 20;

/// How the deliveries of a hold ended.
#[derive(Clone, Copy)]
pub enum Ending {
    /// No consumer is ready any more.
    Quiet,
    /// As much was done as a hold does.
    Full,
    /// The volume failed in the last one, and the place is stopped.
    Broke,
    /// Memory ran out.
    Short,
    /// The numbers of the store's generations are used up.
    WornOut,
}

/// Delivers at a moment until no consumer is ready, if somebody listens to these push consumers, and adds what this sends; it ends before that once the
/// hold is full, or by a fault.
pub fn deliver_all<P: Place>(
    place: &mut P,
    now: Moment,
    listening: &Listening,
    outs: &mut Outs,
) -> Ending
    requires going { (P.seen place.old).place.stopped ≡ None }
    ensures delivers { (seat : ℕ) (at : PlaceAt) → DeliversOn P.holds most_deliveries seat at now listening.now result (P.seen place.old) (P.seen place.new) outs.old outs.new }
    ensures vol { P.keeps_vol (P.vol place.old) (P.vol place.new) }
{
    place.law_kept();
    let mut size = size_of(outs.as_slice());
    for _ in 0..MOST_DELIVERIES {
        if size >= MOST_BYTES {
            return Ending::Full;
        }
        let from = outs.len();
        if let Some(ending) = deliver_next(place, now, listening, outs) {
            return ending;
        }
        place.law_kept();
        size = size.saturating_add(size_of(outs.as_slice().split_at(from).1));
    }
    Ending::Full
}

/// Makes one delivery at a moment while there is room, and adds what it sends; or tells why no further one is made.
fn deliver_next<P: Place>(
    place: &mut P,
    now: Moment,
    listening: &Listening,
    outs: &mut Outs,
) -> Option<Ending>
    requires going { (P.seen place.old).place.stopped ≡ None }
    requires room { sum_by bytes_of outs.old < most_bytes }
    ensures goes_on { GoesOn P.holds now listening.now result (P.seen place.old) (P.seen place.new) outs.old outs.new }
    ensures vol { P.keeps_vol (P.vol place.old) (P.vol place.new) }
{
    law_moment(now);
    // that the incarnation is at most 2^62 is what the proof takes from this call
    let _ = place.incarnation();
    place.law_kept();
    let told = place.deliver_one(now, listening, outs);
    place.law_kept();
    ending_after(told)
}

/// Why no further delivery is made after one that came to that at a place that was not stopped before. `None` if it was made.
fn ending_after(told: Result<Option<Delivery>, PlaceFault>) -> Option<Ending>
    ensures value { result ≡ ending_after told }
{
    match told {
        Ok(Some(_)) => None,
        Ok(None) => Some(Ending::Quiet),
        Err(fault) => Some(ended_by(fault)),
    }
}

/// How a delivery's fault ends the deliveries. `Stopped` can't come, since the place was not stopped before, and no delivery is told `Gone`.
fn ended_by(fault: PlaceFault) -> Ending
    ensures value { result ≡ ending_by fault }
{
    match fault {
        PlaceFault::NoMemory(_) => Ending::Short,
        PlaceFault::StoreFault | PlaceFault::Stopped(_) | PlaceFault::Gone(_) => Ending::Broke,
        PlaceFault::Worn { refused: _ } => Ending::WornOut,
    }
}

/// How many bytes these messages have together, in all of their fields; 2^64 - 1 if they have more.
fn size_of(outs: &[Out]) -> usize
    ensures value { result ≡ min (sum_by bytes_of outs.now) (2 ^ 64 - 1) }
{
    let mut size = 0usize;
    for out in outs {
        size = size.saturating_add(bytes_of(out));
    }
    size
}

/// How many bytes a message has in all of its fields; 2^64 - 1 if it has more.
fn bytes_of(out: &Out) -> usize
    ensures value { result ≡ min (bytes_of out.now) (2 ^ 64 - 1) }
{
    let reply = match &out.reply {
        Some(reply) => reply.len(),
        None => 0,
    };
    out.to
        .len()
        .saturating_add(out.subject.len())
        .saturating_add(reply)
        .saturating_add(out.headers.len())
        .saturating_add(out.payload.len())
}
