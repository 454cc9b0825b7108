//! The closing of a desk: each place is flushed, and gives its volume back.

ghost use Rattle.std.specs.Prelude.{◌≡◌, ◌≤◌, ◌+◌, [], length, vec_capacity};
ghost use Rattle.std.specs.List.{AllZip};
ghost use Rattle.desk_places.specs.Closing.{AreClosed, EndsAt, failure_or};

use place_engine::{Place, PlaceFault};

/// The failure that was there, or else the one of this place.
fn failure_or(
    failed: Option<(u32, PlaceFault)>,
    place: u32,
    told: Option<Result<(), PlaceFault>>,
) -> Option<(u32, PlaceFault)>
    ensures value { result ≡ failure_or failed place told }
{
    if failed.is_some() {
        return failed;
    }
    match told {
        Some(Err(fault)) => Some((place, fault)),
        Some(Ok(())) => None,
        None => None,
    }
}

/// Flushes a place that is not stopped, and gives its volume back.
fn close_place<P: Place>(place: P) -> (Option<Result<(), PlaceFault>>, P::Vol)
    ensures ends { EndsAt P.seen P.vol P.holds P.reads P.left P.clock P.base P.keeps_vol place (record { told = result.0; vol = result.1 }) }
{
    let mut place = place;
    place.law_kept();
    if place.stopped().is_some() {
        return (None, place.into_vol());
    }
    let told = place.flush();
    place.law_kept();
    (Some(told), place.into_vol())
}

/// Closes the places in their order, gives their volumes back, and answers the first failure. It takes no memory.
pub fn close_places<P: Place>(places: Vec<P>, vols: &mut Vec<P::Vol>) -> Option<(u32, PlaceFault)>
    requires empty { vols.old.items ≡ [] }
    requires room { length places.items ≤ vec_capacity vols.old }
    requires few { length places.items ≤ 32 }
    ensures closed { AreClosed P.seen P.vol P.holds P.reads P.left P.clock P.base P.keeps_vol places.items vols.new.items result }
{
    let mut places = places;
    places.reverse();
    let mut failed = None;
    while !places.is_empty() {
        let (told, vol) = close_place(places.take_last());
        failed = failure_or(failed, vols.len() as u32, told);
        vols.push_reserved(vol);
    }
    places.destroy_empty();
    failed
}
