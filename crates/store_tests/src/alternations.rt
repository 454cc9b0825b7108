//! `stream_store`: a commit that leaves the log for the other one, each of whose calls fails once or ends it, and the opening that comes after it.

ghost use Rattle.std.specs.Prelude.{IfOk};
ghost use Rattle.durable_checks.specs.Storable.{IsFormed, IsStorable};

use crate::store_calls::{
    Counts, Ended, check_images, clear, count_in_image, held, is_shut, opened, publish,
    publish_in_next, with_messages,
};
use disk_tests::Blind;
use effects::Durable;
use std::alloc::Global;
use std::process::Abort;
use std::test::Fail;
use stream_store::{OpenFault, Store};
use vol_disk::{Failed, MemVol};

/// More calls than a commit of these tests makes.
const MANY: u64 = 60;

/// More calls than an opening makes with its clearing.
const MANY_OPENING: u64 = 400;

/// So many calls of the commit at least come before the first gate of the next log is opened.
const BEFORE_GATE: u64 = 10;

/// What a volume would hold with a message more.
fn with_third(alloc: Global, vol: &MemVol) -> Result<Durable, Fail>
    ensures formed { IfOk result IsFormed }
    ensures storable { IfOk result IsStorable }
{
    let (mut store, mut copy) = opened(alloc, vol.image(1)?, &[], None)?;
    publish(alloc, &mut store, &mut copy, 3, b"hello")?;
    held(alloc, &mut copy)
}

/// Commits a third message in the other log, and fails at the calls with these numbers, or from the stop on. Tells what came, and the volume.
fn third(alloc: Global, failing: &[u64], stop: Option<u64>) -> Result<(Ended, MemVol), Fail> {
    let vol = with_messages(alloc, &[5, 5])?;
    let next = with_third(alloc, &vol)?;
    let (mut store, mut vol) = opened(alloc, vol, failing, stop)?;
    let ended = publish_in_next(alloc, &mut store, &mut vol, 3, b"hello", &next)?;
    Ok((ended, vol.into_vol()))
}

/// Checks what crashes leave of such a commit: two messages or three, and surely three if it was answered.
fn check_third(
    rt: &impl Abort,
    alloc: Global,
    failing: &[u64],
    stop: Option<u64>,
) -> Result<Ended, Fail> {
    let (ended, vol) = third(alloc, failing, stop)?;
    let counts = Counts {
        before: 2,
        after: Some(3),
    };
    check_images(rt, alloc, ended, &vol, counts)?;
    Ok(ended)
}

/// How many calls such a commit makes, each of which fails it.
fn count_of_failing(rt: &impl Abort, alloc: Global) -> Result<u64, Fail> {
    for at in 0..MANY {
        if check_third(rt, alloc, &[at], None)? == Ended::Done {
            return Ok(at);
        }
    }
    Ok(MANY)
}

#[test]
fn failing_call_leaves_an_alternation_whole_or_not_at_all(rt: HostRuntime) -> Result<(), Fail> {
    let calls = count_of_failing(&rt, rt.alloc())?;
    assert!(rt; 15 < calls && calls < MANY, "{calls}");
    Ok(())
}

/// How many calls such a commit makes, after each of which a stop ends it.
fn count_of_stops(rt: &impl Abort, alloc: Global) -> Result<u64, Fail> {
    for stop in 0..MANY {
        if check_third(rt, alloc, &[], Some(stop))? == Ended::Done {
            return Ok(stop);
        }
    }
    Ok(MANY)
}

#[test]
fn stop_leaves_an_alternation_whole_or_not_at_all(rt: HostRuntime) -> Result<(), Fail> {
    let calls = count_of_stops(&rt, rt.alloc())?;
    assert!(rt; 15 < calls && calls < MANY, "{calls}");
    Ok(())
}

/// Whether a crash leaves a log in file 1 alone, and in file 0 nothing, where this image is picked.
fn is_closed(vol: &MemVol, pick: u64) -> Result<bool, Fail> {
    let mut image = vol.image(pick)?;
    Ok(is_shut(&mut image, 0)? && !is_shut(&mut image, 1)?)
}

#[test]
fn log_that_was_left_is_closed(rt: HostRuntime) -> Result<(), Fail> {
    let (ended, vol) = third(rt.alloc(), &[], None)?;
    assert!(rt; ended == Ended::Done);
    for pick in 0..20 {
        assert!(rt; is_closed(&vol, pick)?, "{pick}");
    }
    Ok(())
}

/// The generation of a volume that is opened.
fn generation(alloc: Global, vol: &mut MemVol) -> Result<u64, Fail> {
    let opened = Store::open(alloc, vol)?;
    Ok(opened.0.generation())
}

#[test]
fn next_log_has_the_next_generation(rt: HostRuntime) -> Result<(), Fail> {
    let (_, mut vol) = third(rt.alloc(), &[], None)?;
    assert!(rt; generation(rt.alloc(), &mut vol)? == 2);
    Ok(())
}

// ---- the opening after it

/// Opens a volume, and clears what is not used.
fn open_and_clear(alloc: Global, vol: &mut Blind) -> Result<Ended, Fail> {
    match Store::open(alloc, vol) {
        Ok((mut store, _)) => clear(&mut store, vol),
        Err(OpenFault::Fault) => Ok(Ended::Failed),
        Err(fault) => Err(fault)?,
    }
}

/// Opens what a volume reads as, and clears it, and fails at the calls with these numbers, or from the stop on. Tells what came, and the volume.
fn reopened(
    alloc: Global,
    vol: &MemVol,
    failing: &[u64],
    stop: Option<u64>,
) -> Result<(Ended, MemVol), Fail> {
    let mut vol = Blind::over(alloc, vol.image(1)?, failing, stop)?;
    let ended = open_and_clear(alloc, &mut vol)?;
    Ok((ended, vol.into_vol()))
}

/// Checks that each crash of such an opening leaves so many messages, and no other log if it came to its end.
fn check_reopened(
    rt: &impl Abort,
    alloc: Global,
    ended: Ended,
    vol: &MemVol,
    count: Option<usize>,
) -> Result<(), Fail> {
    for pick in 0..3 {
        assert!(rt; count_in_image(alloc, vol, pick)? == count, "{pick}");
        assert!(rt; ended == Ended::Failed || has_one_log(vol, pick)?, "{pick}");
    }
    Ok(())
}

/// Whether one of the two logs holds nothing, where this image is picked.
fn has_one_log(vol: &MemVol, pick: u64) -> Result<bool, Fail> {
    let mut image = vol.image(pick)?;
    Ok(is_shut(&mut image, 0)? || is_shut(&mut image, 1)?)
}

/// Checks that where each call of the opening ends it in turn.
fn check_each_stop(rt: &impl Abort, alloc: Global, left: &MemVol) -> Result<(), Fail> {
    let count = count_in_image(alloc, left, 1)?;
    for stop in 0..MANY_OPENING {
        let (ended, vol) = reopened(alloc, left, &[], Some(stop))?;
        check_reopened(rt, alloc, ended, &vol, count)?;
        if ended == Ended::Done {
            return Ok(());
        }
    }
    Err(Failed)?
}

/// Checks that where each call of the opening fails in turn.
fn check_each_failing(rt: &impl Abort, alloc: Global, left: &MemVol) -> Result<(), Fail> {
    let count = count_in_image(alloc, left, 1)?;
    for at in 0..MANY_OPENING {
        let (ended, vol) = reopened(alloc, left, &[at], None)?;
        check_reopened(rt, alloc, ended, &vol, count)?;
        if ended == Ended::Done {
            return Ok(());
        }
    }
    Err(Failed)?
}

#[test]
fn stop_at_each_call_of_the_opening_after_a_stopped_alternation(
    rt: HostRuntime,
) -> Result<(), Fail> {
    for stop in BEFORE_GATE..MANY {
        let (ended, left) = third(rt.alloc(), &[], Some(stop))?;
        check_each_stop(&rt, rt.alloc(), &left)?;
        if ended == Ended::Done {
            return Ok(());
        }
    }
    Err(Failed)?
}

#[test]
fn failing_call_of_the_opening_after_a_stopped_alternation(rt: HostRuntime) -> Result<(), Fail> {
    for stop in BEFORE_GATE..MANY {
        let (ended, left) = third(rt.alloc(), &[], Some(stop))?;
        check_each_failing(&rt, rt.alloc(), &left)?;
        if ended == Ended::Done {
            return Ok(());
        }
    }
    Err(Failed)?
}
