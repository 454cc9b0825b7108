//! `gate_log`: a log that is shut, and one that is started over it, on a volume that stops at each of the calls; and the log that is found in what a crash
//! leaves.

use crate::blind::Blind;
use crate::logs::{LEN, generation, logged};
use gate_log::{Batch, GateLog};
use std::alloc::Global;
use std::test::Fail;
use vol_disk::{MemVol, Vol};

/// Shuts the log on a volume that stops at the call with this number of the shutting, and tells whether it answered `Ok`.
fn shut(alloc: Global, at: u64) -> Result<(bool, MemVol), Fail> {
    let (vol, _) = logged(alloc)?;
    let mut vol = Blind::over(alloc, vol.into_vol(), &[], Some(at))?;
    let is_done = GateLog::shut(&mut vol, 0).is_ok();
    Ok((is_done, vol.into_vol()))
}

#[test]
fn crash_leaves_the_log_as_it_was_or_nothing(rt: HostRuntime) -> Result<(), Fail> {
    let alloc = rt.alloc();
    // The write is the call with the number 4, and its sync the next one.
    for at in 0..7 {
        let (is_done, vol) = shut(alloc, at)?;
        assert_eq!(rt; is_done, at == 6, "{at}");
        for pick in 0..60 {
            let mut image = vol.image(pick)?;
            assert!(rt; image.len(0)? == LEN, "{at} {pick}");
            let found = generation(alloc, image)?;
            assert!(rt;
                found == Some(7) && at < 6 || found.is_none() && at > 3,
                "{at} {pick}"
            );
        }
    }
    Ok(())
}

/// Starts a log of generation 8 over that of generation 7, on a volume that stops at the call with this number, and tells whether it answered `Ok`.
fn started_over(alloc: Global, at: u64) -> Result<(bool, MemVol), Fail> {
    let (vol, _) = logged(alloc)?;
    let mut vol = Blind::over(alloc, vol.into_vol(), &[], Some(at))?;
    let is_done = GateLog::start(&mut vol, 0, 8).is_ok();
    Ok((is_done, vol.into_vol()))
}

/// The generation of the log that is found once one of generation 9 was started, and has a batch.
fn started_again(alloc: Global, vol: MemVol) -> Result<Option<u64>, Fail> {
    let mut vol = Blind::over(alloc, vol, &[], None)?;
    let mut log = GateLog::start(&mut vol, 0, 9)?;
    let batch = Batch::of(alloc, b"again")?;
    log.append_batch(&mut vol, &batch)?;
    generation(alloc, vol.into_vol())
}

/// The batch of before never stands under the new generation.
#[test]
fn crash_of_a_start_leaves_the_old_log_or_nothing(rt: HostRuntime) -> Result<(), Fail> {
    let alloc = rt.alloc();
    // The gate is closed by the calls up to the number 4, and the head is written by the three behind them.
    for at in 0..9 {
        let (is_done, vol) = started_over(alloc, at)?;
        assert_eq!(rt; is_done, at == 8, "{at}");
        for pick in 0..60 {
            let found = generation(alloc, vol.image(pick)?)?;
            assert!(rt;
                found == Some(7) && at < 5 || found.is_none() && at > 2,
                "{at} {pick}"
            );
            let found = started_again(alloc, vol.image(pick)?)?;
            assert_eq!(rt; found, Some(9), "{at} {pick}");
        }
    }
    Ok(())
}
