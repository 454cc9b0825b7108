//! A volume that is full refuses what makes a place hold more, and takes it again once there is room. All else goes on.

use crate::attempts::reopened;
use crate::deeds::Deed;
use crate::kept::{Kept, Told};
use js_base::List;
use place_engine::OpenFault;
use std::alloc::Global;
use std::process::Abort;
use std::sync::Arc;
use std::sync::atomic::{AtomicU64, Ordering};
use std::test::Fail;
use vol_disk::{Deed as VolDeed, MemVol};

/// The refusal for want of room.
const NO_ROOM: u32 = 20_016;

/// What makes a place hold more.
const GROWING: [Deed; 5] = [
    Deed::Make,
    Deed::MakeConsumer,
    Deed::Publish,
    Deed::PublishWithId,
    Deed::Update,
];

/// What is done again and again to a stream with a consumer and messages, for which no room is needed. Each round is a batch at least, so that both logs are left
/// for want of room.
const QUIET: [Deed; 3] = [Deed::Deliver, Deed::Acknowledge, Deed::Purge];

/// How often.
const ROUNDS: u32 = 2_000;

/// How many bytes the files of a volume had together each time it was asked for room.
fn lengths(alloc: Global, vol: &MemVol) -> Result<List<u64>, Fail> {
    let mut lengths = List::new(alloc);
    let mut sum: u64 = 0;
    for call in vol.calls() {
        if let VolDeed::Grow { count } = &call.deed {
            sum = sum.saturating_add(*count);
            lengths.push(sum)?;
        }
    }
    Ok(lengths)
}

/// The volume of a place to which all that was done, without a budget.
fn unbounded(alloc: Global) -> Result<MemVol, Fail> {
    match Kept::open(alloc, MemVol::new(alloc)) {
        Ok(kept) => {
            let mut kept = kept;
            for deed in GROWING {
                kept.act(deed)?;
            }
            kept.flush()?;
            Ok(kept.into_vol())
        }
        Err((fault, _)) => Err(fault.into()),
    }
}

/// A place on a volume whose files may have so many bytes together. If it has no room even for that, it gets some.
fn bounded(alloc: Global, budget: &Arc<AtomicU64, Global>) -> Result<Kept, Fail> {
    match Kept::open(alloc, MemVol::new(alloc).with_budget(budget.clone()?)) {
        Ok(kept) => Ok(kept),
        Err((OpenFault::NoRoom, vol)) => {
            budget.store(u64::MAX, Ordering::Relaxed);
            match Kept::open(alloc, vol) {
                Ok(kept) => Ok(kept),
                Err((fault, _)) => Err(fault.into()),
            }
        }
        Err((fault, _)) => Err(fault.into()),
    }
}

/// Does it. If there is no room, it is refused, leaves the place as it was, and is done once there is some.
fn do_with_room(
    rt: &impl Abort,
    kept: &mut Kept,
    budget: &Arc<AtomicU64, Global>,
    deed: Deed,
) -> Result<bool, Fail> {
    let Some(refusal) = kept.try_to(deed)? else {
        return Ok(false);
    };
    assert_eq!(rt; refusal, NO_ROOM);
    budget.store(u64::MAX, Ordering::Relaxed);
    assert_eq!(rt; kept.try_to(deed)?, None);
    Ok(true)
}

/// Does all that on a volume whose files may have so many bytes together, until something is refused. Whether something was, and what a crash leaves.
fn refused_at(rt: &impl Abort, alloc: Global, bytes: u64) -> Result<(bool, Told), Fail> {
    let budget = Arc::new(alloc, AtomicU64::new(bytes))?;
    let mut kept = bounded(alloc, &budget)?;
    let mut refused = budget.load(Ordering::Relaxed) != bytes;
    for deed in GROWING {
        refused |= do_with_room(rt, &mut kept, &budget, deed)?;
    }
    kept.flush()?;
    let told = reopened(alloc, &kept.into_vol(), 0)?;
    Ok((refused, told))
}

#[test]
fn full_volume_refuses_and_takes_it_again(rt: HostRuntime) -> Result<(), Fail> {
    let alloc = rt.alloc();
    let vol = unbounded(alloc)?;
    let after = reopened(alloc, &vol, 0)?;
    for length in lengths(alloc, &vol)?.as_slice() {
        let (refused, told) = refused_at(&rt, alloc, length.saturating_sub(1))?;
        assert!(&rt; refused, "{length}");
        assert_eq!(&rt; told, after);
    }
    Ok(())
}

#[test]
fn full_volume_takes_all_that_needs_no_room(rt: HostRuntime) -> Result<(), Fail> {
    let alloc = rt.alloc();
    let budget = Arc::new(alloc, AtomicU64::new(u64::MAX))?;
    let mut kept = bounded(alloc, &budget)?;
    for deed in [Deed::Make, Deed::MakeConsumer, Deed::Publish, Deed::Publish] {
        kept.act(deed)?;
    }
    budget.store(0, Ordering::Relaxed);
    for _ in 0..ROUNDS {
        kept.tick(1)?;
        for deed in QUIET {
            assert_eq!(&rt; kept.try_to(deed)?, None);
            kept.flush()?;
        }
    }
    assert_eq!(&rt; kept.try_to(Deed::Publish)?, Some(NO_ROOM));
    assert_eq!(&rt; kept.try_to(Deed::Drop)?, None);
    kept.flush()?;
    assert_eq!(&rt; reopened(alloc, &kept.into_vol(), 0)?.messages(), None);
    Ok(())
}
