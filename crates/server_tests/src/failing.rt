//! Volumes in memory of which some calls fail.

use crate::runs::{Outcome, serve, volume_of};
use js_base::List;
use std::alloc::Global;
use std::sync::Wait;
use std::test::Fail;
use std::thread::Threads;
use vol_disk::{Deed, MemVol, Vol};

/// Which calls of a volume fail: the one with a number, or all from it on.
#[derive(Clone, Copy)]
pub(crate) enum Failing {
    Once,
    Onward,
}

/// The volume as it reads, of which such calls fail.
pub(crate) fn with_failing(
    alloc: Global,
    vol: &MemVol,
    failing: Failing,
    number: u64,
) -> Result<MemVol, Fail> {
    let mut once = List::new(alloc);
    let stop = match failing {
        Failing::Once => {
            once.push(number)?;
            None
        }
        Failing::Onward => Some(number),
    };
    Ok(vol.image(1)?.with_failures(once, stop))
}

/// How many calls a run makes on the volume whose client asks for nothing. They are those of its opening.
pub(crate) fn opening_calls(
    rt: &(impl Threads + Wait + Sync),
    alloc: Global,
    vol: &MemVol,
) -> Result<u64, Fail> {
    let ran = serve(rt, alloc, vec![in alloc; vol.image(1)?]?, b"")?;
    Ok(volume_of(&ran)?.calls().len() as u64)
}

/// The number of the last sync behind a write to the run's volume: the one by which the last deed was confirmed.
pub(crate) fn confirming_sync(ran: &Outcome) -> Result<u64, Fail> {
    let mut last = None;
    let mut is_written = false;
    for (number, call) in volume_of(ran)?.calls().iter().enumerate() {
        if matches!(&call.deed, Deed::Sync) && is_written {
            last = Some(number as u64);
        }
        is_written = matches!(&call.deed, Deed::Write { .. });
    }
    match last {
        Some(number) => Ok(number),
        None => Err("nothing was written")?,
    }
}

/// The volume as it reads, of which the sync fails by which what the client says is confirmed.
pub(crate) fn failing_to_confirm(
    rt: &(impl Threads + Wait + Sync),
    alloc: Global,
    vol: &MemVol,
    said: &[u8],
) -> Result<MemVol, Fail> {
    let ran = serve(rt, alloc, vec![in alloc; vol.image(1)?]?, said)?;
    with_failing(alloc, vol, Failing::Once, confirming_sync(&ran)?)
}

/// Whether one call of the first volume failed, and that was a sync.
pub(crate) fn one_sync_failed(vols: &[MemVol]) -> bool {
    match vols {
        [vol, ..] => {
            let calls = vol.calls();
            vol.faults() == 1
                && calls
                    .iter()
                    .any(|call| matches!(&call.deed, Deed::Sync) && !call.is_done)
        }
        [] => false,
    }
}

/// Whether no call of the run's volume failed.
pub(crate) fn is_untroubled(ran: &Outcome) -> bool {
    ran.vols.iter().all(|vol| vol.faults() == 0)
}
