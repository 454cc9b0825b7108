//! The volumes of a desk: each becomes a place, and is given back at the end.

ghost use Rattle.std.specs.Prelude.{◌≡◌, ◌<◌, ◌≤◌, ◌+◌, ◌++◌, [], IfErr, IfOk, OnOk, length, map, reverse, vec_capacity, vec_len};
ghost use Rattle.std.specs.List.{AllZip};
ghost use Rattle.desk_places.specs.Opening.{FailsToOpen, OpensOn, RefusesOn, StopsAt};

use crate::faults::HubFault;
use place_engine::{OpenFault, Place};
use std::alloc::Global;

/// Gives back the volumes of places, before those that are there in the other order. It takes no memory.
pub fn give_back<P: Place>(places: Vec<P>, vols: &mut Vec<P::Vol>)
    requires room { vec_len vols.old + length places.items ≤ vec_capacity vols.old }
    ensures given { vols.new.items ≡ map P.vol places.items ++ reverse vols.old.items }
{
    let mut places = places;
    while !places.is_empty() {
        let place = places.take_last();
        vols.push_reserved(place.into_vol());
    }
    places.destroy_empty();
    vols.reverse();
}

/// Opens a place on a volume, and shows what a crash may leave of it.
fn open_place<P: Place>(alloc: Global, vol: P::Vol) -> Result<P, (OpenFault, P::Vol)>
    ensures opened { IfOk result (OpensOn P.seen P.vol P.holds P.reads P.left P.clock P.faults P.room_causes P.base P.opens P.refuses P.keeps_vol vol) }
    ensures refused { IfErr result (λ stop. RefusesOn P.seen P.vol P.holds P.reads P.left P.clock P.faults P.room_causes P.base P.opens P.refuses P.keeps_vol vol stop.0 stop.1) }
{
    match P::open(alloc, vol) {
        Ok(place) => {
            place.law_kept();
            Ok(place)
        }
        Err(stop) => Err(stop),
    }
}

/// Opens the places of volumes that stand in the other order, until one is not opened.
fn open_each<P: Place>(
    alloc: Global,
    vols: &mut Vec<P::Vol>,
    places: &mut Vec<P>,
) -> Result<(), (OpenFault, P::Vol)>
    requires none { places.old.items ≡ [] }
    requires room { vec_len vols.old ≤ vec_capacity places.old }
    ensures opened { OnOk result (AllZip (OpensOn P.seen P.vol P.holds P.reads P.left P.clock P.faults P.room_causes P.base P.opens P.refuses P.keeps_vol) (reverse vols.old.items) places.new.items) }
    ensures emptied { OnOk result (vols.new.items ≡ []) }
    ensures stopped { IfErr result (λ stop. StopsAt P.seen P.vol P.holds P.reads P.left P.clock P.faults P.room_causes P.base P.opens P.refuses P.keeps_vol vols.old.items stop.0 stop.1 vols.new.items places.new.items) }
    ensures room { OnOk result (vec_len vols.new + length places.new.items ≤ vec_capacity vols.new) }
    ensures more { IfErr result (λ _. vec_len vols.new + length places.new.items < vec_capacity vols.new) }
    ensures few { length places.new.items ≤ length vols.old.items }
{
    while !vols.is_empty() {
        match open_place(alloc, vols.take_last()) {
            Ok(place) => places.push_reserved(place),
            Err(stop) => return Err(stop),
        }
    }
    Ok(())
}

/// Opens the places of the volumes, in their order, and gives the emptied vector back, into which the volumes can be given. An `Err` gives them back, each as
/// its place left it.
pub fn open_places<P: Place>(
    alloc: Global,
    vols: Vec<P::Vol>,
) -> Result<(Vec<P>, Vec<P::Vol>), HubFault<P::Vol>>
    requires few { length vols.items ≤ 32 }
    ensures opened { IfOk result (λ made. AllZip (OpensOn P.seen P.vol P.holds P.reads P.left P.clock P.faults P.room_causes P.base P.opens P.refuses P.keeps_vol) vols.items made.0.items) }
    ensures emptied { IfOk result (λ made. made.1.items ≡ []) }
    ensures room { IfOk result (λ made. length made.0.items ≤ vec_capacity made.1) }
    ensures err { IfErr result (FailsToOpen P.seen P.vol P.holds P.reads P.left P.clock P.faults P.room_causes P.base P.opens P.refuses P.keeps_vol vols.items) }
{
    let mut vols = vols;
    let mut places = Vec::new(alloc);
    if places.reserve(vols.len()).is_err() {
        places.destroy_empty();
        return Err(HubFault::NoMemory { vols });
    }
    vols.reverse();
    match open_each(alloc, &mut vols, &mut places) {
        Ok(()) => Ok((places, vols)),
        Err((fault, vol)) => {
            let place = places.len() as u32;
            vols.push_reserved(vol);
            give_back(places, &mut vols);
            Err(HubFault::Open { place, fault, vols })
        }
    }
}
