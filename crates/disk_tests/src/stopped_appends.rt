//! `gate_log`: an append that is stopped at each of its calls, and the log that is found in what a crash leaves.

use crate::blind::Blind;
use crate::logs::{logged, records};
use gate_log::{Batch, GateLog};
use std::alloc::Global;
use std::test::Fail;
use vol_disk::MemVol;

/// Appends `d` to a log that has `abc`, on a volume that stops at the call with this number of the append, and tells whether it answered `Ok`.
fn stopped(alloc: Global, at: u64) -> Result<(bool, MemVol), Fail> {
    let (vol, mut log) = logged(alloc)?;
    let mut vol = Blind::over(alloc, vol.into_vol(), &[], Some(at))?;
    let batch = Batch::of(alloc, b"d")?;
    let is_done = log.append_batch(&mut vol, &batch).is_ok();
    Ok((is_done, vol.into_vol()))
}

#[test]
fn crash_leaves_the_new_batch_whole_or_not_at_all(rt: HostRuntime) -> Result<(), Fail> {
    let alloc = rt.alloc();
    // Two times a length, a write and a sync.
    for (at, before, after) in [
        (0, true, false),
        (1, true, false),
        (2, true, false),
        (3, true, false),
        (4, true, true),
        (5, true, true),
        (6, false, true),
    ] {
        let (is_done, vol) = stopped(alloc, at)?;
        assert_eq!(rt; is_done, at == 6, "{at}");
        for pick in 0..60 {
            let mut image = Blind::over(alloc, vol.image(pick)?, &[], None)?;
            let log = GateLog::open(&mut image, 0)?;
            assert_eq!(rt; log.generation(), Some(7), "{at} {pick}");
            let found = records(alloc, &mut image, &log)?;
            assert!(rt;
                found.as_slice() == b"abc|".as_slice() && before
                    || found.as_slice() == b"abc|d|".as_slice() && after,
                "{at} {pick}"
            );
        }
    }
    Ok(())
}
