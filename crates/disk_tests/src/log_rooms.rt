//! `gate_log`: room that is made in a log file on a volume that stops, or has none, at each of the calls, and the log that is found in what a crash leaves.

use crate::blind::Blind;
use crate::logs::{LEN, generation, logged};
use gate_log::GateLog;
use std::alloc::Global;
use std::sync::Arc;
use std::sync::atomic::AtomicU64;
use std::test::Fail;
use vol_disk::{MemVol, Vol};

/// How long the file is to be.
const END: u64 = LEN + 50;

/// Makes room on a volume that stops at the call with this number, and tells whether it answered `Ok`.
fn stopped(alloc: Global, vol: MemVol, at: u64) -> Result<(bool, MemVol), Fail> {
    let mut vol = Blind::over(alloc, vol, &[], Some(at))?;
    let is_done = GateLog::make_room(&mut vol, 0, END).is_ok();
    Ok((is_done, vol.into_vol()))
}

/// Whether each image has a log of this generation, or none, and room can be made in it.
fn all_have(alloc: Global, vol: &MemVol, wanted: Option<u64>) -> Result<bool, Fail> {
    for pick in 0..60 {
        if generation(alloc, vol.image(pick)?)? != wanted {
            return Ok(false);
        }
        let mut again = Blind::over(alloc, vol.image(pick)?, &[], None)?;
        let len = GateLog::make_room(&mut again, 0, END)?;
        if len < END || generation(alloc, again.into_vol())? != wanted {
            return Ok(false);
        }
    }
    Ok(true)
}

#[test]
fn crash_leaves_a_log_as_it_was(rt: HostRuntime) -> Result<(), Fail> {
    let alloc = rt.alloc();
    // A length, zeros and a sync.
    for at in 0..4 {
        let (vol, _) = logged(alloc)?;
        let (is_done, vol) = stopped(alloc, vol.into_vol(), at)?;
        assert_eq!(rt; is_done, at == 3, "{at}");
        assert!(rt; all_have(alloc, &vol, Some(7))?, "{at}");
    }
    Ok(())
}

#[test]
fn crash_leaves_no_log_where_none_was(rt: HostRuntime) -> Result<(), Fail> {
    let alloc = rt.alloc();
    // A length; room for the head, its write, for which `Blind` asks for the length, and a sync; and the room behind it.
    for at in 0..9 {
        let (is_done, vol) = stopped(alloc, MemVol::new(alloc), at)?;
        assert_eq!(rt; is_done, at == 8, "{at}");
        assert!(rt; all_have(alloc, &vol, None)?, "{at}");
    }
    Ok(())
}

/// How long the file is known to be that may have so many bytes, and the volume.
fn bounded(alloc: Global, vol: MemVol, budget: u64) -> Result<(u64, Blind), Fail> {
    let budget = Arc::new(alloc, AtomicU64::new(budget))?;
    let mut vol = Blind::over(alloc, vol.with_budget(budget), &[], None)?;
    let len = GateLog::make_room(&mut vol, 0, END)?;
    Ok((len, vol))
}

#[test]
fn log_stands_where_there_is_no_room(rt: HostRuntime) -> Result<(), Fail> {
    let alloc = rt.alloc();
    for (budget, wanted) in [(0, 0), (20, 0), (21, 21), (END - 1, 21), (END, END)] {
        let (len, vol) = bounded(alloc, MemVol::new(alloc), budget)?;
        assert_eq!(rt; len, wanted, "{budget}");
        assert_eq!(rt; vol.refusals(), u64::from(budget < END), "{budget}");
        assert!(rt; all_have(alloc, &vol.into_vol(), None)?, "{budget}");
    }
    let (vol, _) = logged(alloc)?;
    let (len, vol) = bounded(alloc, vol.into_vol(), END - 1)?;
    assert_eq!(rt; len, LEN);
    assert!(rt; all_have(alloc, &vol.into_vol(), Some(7))?);
    Ok(())
}
