//! One deed on a volume that fails.

use crate::deeds::Deed;
use crate::kept::{Kept, Told, Undone};
use js_base::List;
use place_engine::{OpenFault, PlaceFault};
use std::alloc::Global;
use std::test::Fail;
use vol_disk::MemVol;

/// What came of it.
#[derive(Clone, Copy, Debug, PartialEq, Eq)]
pub enum Came {
    /// The volume was not opened.
    Unopened,
    /// The deed was not answered or not brought to the volume, and the place was stopped.
    Stopped,
    /// It was answered, and is on the volume.
    Done,
    /// Something else, which is wrong.
    Wrong,
}

/// Which calls of a volume fail: one, or all from one on.
#[derive(Clone, Copy, Debug, PartialEq, Eq)]
pub enum Failing {
    Once(u64),
    From(u64),
}

/// The volume as it reads, of which such calls fail.
fn volume_failing(alloc: Global, start: &MemVol, calls: Failing) -> Result<MemVol, Fail> {
    let mut once = List::new(alloc);
    let stop = match calls {
        Failing::Once(number) => {
            once.push(number)?;
            None
        }
        Failing::From(number) => Some(number),
    };
    Ok(start.image(1)?.with_failures(once, stop))
}

/// Whether a place that was stopped does nothing more, and keeps its count.
fn is_stopped(kept: &mut Kept, deed: Deed) -> bool {
    kept.act(deed) == Err(Undone::Place(PlaceFault::Stopped(1)))
        && kept.act(deed) == Err(Undone::Place(PlaceFault::Stopped(1)))
}

/// Brings what was done to the volume, and tells what came of it.
fn flush(kept: &mut Kept, deed: Deed) -> Came {
    match kept.flush() {
        Ok(()) => Came::Done,
        Err(PlaceFault::StoreFault) if is_stopped(kept, deed) => Came::Stopped,
        Err(_) => Came::Wrong,
    }
}

/// Does it, brings it to the volume, and tells what came of it. A place that is stopped as it is done sent nothing.
fn act(kept: &mut Kept, deed: Deed) -> Came {
    match kept.act(deed) {
        Ok(()) => flush(kept, deed),
        Err(Undone::Place(PlaceFault::StoreFault)) if kept.sent() == 0 && is_stopped(kept, deed) =>
            Came::Stopped,
        Err(_) => Came::Wrong,
    }
}

/// Does it to a place that was opened, and gives its volume back.
fn acted(kept: Kept, deed: Deed) -> (Came, MemVol) {
    let mut kept = kept;
    let came = act(&mut kept, deed);
    (came, kept.into_vol())
}

/// Opens the volume and does it, while such calls fail. What came of it, and the volume then.
pub fn attempt(
    alloc: Global,
    start: &MemVol,
    deed: Deed,
    calls: Failing,
) -> Result<(Came, MemVol), Fail> {
    let vol = volume_failing(alloc, start, calls)?;
    match Kept::open(alloc, vol) {
        Ok(kept) => Ok(acted(kept, deed)),
        Err((OpenFault::Fault, vol)) => Ok((Came::Unopened, vol)),
        Err((_, vol)) => Ok((Came::Wrong, vol)),
    }
}

/// How many calls an opening of the volume makes.
pub fn opening_calls(alloc: Global, start: &MemVol) -> Result<u64, Fail> {
    match Kept::open(alloc, start.image(1)?) {
        Ok(kept) => Ok(kept.into_vol().calls().len() as u64),
        Err((fault, _)) => Err(fault.into()),
    }
}

/// What is told of a place, which ends with that.
fn told(kept: Kept) -> Result<Told, Undone> {
    let mut kept = kept;
    let told = kept.told();
    let _vol = kept.into_vol();
    told
}

/// What is told of the place that is opened on what a crash leaves of a volume, as the number picks it.
pub fn reopened(alloc: Global, vol: &MemVol, pick: u64) -> Result<Told, Fail> {
    match Kept::open(alloc, vol.image(pick)?) {
        Ok(kept) => Ok(told(kept)?),
        Err((fault, _)) => Err(fault.into()),
    }
}
