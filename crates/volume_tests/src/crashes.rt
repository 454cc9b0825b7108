//! Each deed, while each call of the volume fails in turn, and the volume stops at each call.

use crate::attempts::{Came, Failing, attempt, opening_calls, reopened};
use crate::deeds::Deed;
use crate::kept::Told;
use std::alloc::Global;
use std::process::Abort;
use std::test::Fail;
use vol_disk::MemVol;

/// A stream, a consumer and two messages.
const MESSAGES: [Deed; 4] = [
    Deed::Make,
    Deed::MakeConsumer,
    Deed::Publish,
    Deed::PublishWithId,
];

/// What is done with these.
const CHANGES: [Deed; 5] = [
    Deed::Deliver,
    Deed::Acknowledge,
    Deed::Update,
    Deed::Purge,
    Deed::Drop,
];

/// More than the calls of an opening and a deed.
pub const MANY: u64 = 60;

/// The volume after such a deed, and what is told of it.
fn next(alloc: Global, start: &MemVol, deed: Deed) -> Result<(MemVol, Told), Fail> {
    let (_, vol) = attempt(alloc, start, deed, Failing::From(u64::MAX))?;
    let told = reopened(alloc, &vol, 1)?;
    Ok((vol, told))
}

/// Whether each image holds what stood before or after the deed: the latter if it was answered, and the former if the volume was not opened.
pub fn holds_one(
    alloc: Global,
    vol: &MemVol,
    came: Came,
    before: Told,
    after: Told,
) -> Result<bool, Fail> {
    for pick in [0, 1, 5] {
        let told = reopened(alloc, vol, pick)?;
        let fits = match came {
            Came::Done => told == after,
            Came::Unopened => told == before,
            Came::Stopped => told == before || told == after,
            Came::Wrong => false,
        };
        if !fits {
            return Ok(false);
        }
    }
    Ok(true)
}

/// Which calls fail, for one number after the other.
#[derive(Clone, Copy)]
pub enum Turn {
    Once,
    From,
}

impl Turn {
    fn calls(self, number: u64) -> Failing {
        match self {
            Turn::Once => Failing::Once(number),
            Turn::From => Failing::From(number),
        }
    }
}

/// Does it again and again, while each call of the volume from one on fails in turn, until it is answered. How many of them did.
pub fn failures(
    rt: &impl Abort,
    alloc: Global,
    start: &MemVol,
    deed: Deed,
    turn: Turn,
    first: u64,
) -> Result<u64, Fail> {
    let before = reopened(alloc, start, 1)?;
    let (_, after) = next(alloc, start, deed)?;
    for number in 0..MANY {
        let calls = turn.calls(first.saturating_add(number));
        let (came, vol) = attempt(alloc, start, deed, calls)?;
        assert!(rt;
            holds_one(alloc, &vol, came, before, after)?,
            "{deed:?} {number}"
        );
        if came == Came::Done {
            return Ok(number);
        }
    }
    Ok(MANY)
}

/// Does one deed after the other so. Each makes calls that can fail, and is answered once none does.
fn check_deeds(
    rt: &impl Abort,
    alloc: Global,
    start: MemVol,
    deeds: &[Deed],
    turn: Turn,
) -> Result<MemVol, Fail> {
    let mut vol = start;
    for deed in deeds {
        let first = opening_calls(alloc, &vol)?;
        let count = failures(rt, alloc, &vol, *deed, turn, first)?;
        assert!(rt; 0 < count && count < MANY, "{deed:?}: {count}");
        let (then, _) = next(alloc, &vol, *deed)?;
        vol = then;
    }
    Ok(vol)
}

/// A volume with the messages.
fn with_messages(alloc: Global) -> Result<MemVol, Fail> {
    let mut vol = MemVol::new(alloc);
    for deed in MESSAGES {
        let (then, _) = next(alloc, &vol, deed)?;
        vol = then;
    }
    Ok(vol)
}

#[test]
fn volume_that_fails_is_not_opened(rt: HostRuntime) -> Result<(), Fail> {
    let alloc = rt.alloc();
    for turn in [Turn::Once, Turn::From] {
        let vol = MemVol::new(alloc);
        let calls = opening_calls(alloc, &vol)?;
        let count = failures(&rt, alloc, &vol, Deed::Make, turn, 0)?;
        assert!(&rt; calls < count && count < MANY);
    }
    Ok(())
}

#[test]
fn crash_leaves_the_messages_that_were_answered(rt: HostRuntime) -> Result<(), Fail> {
    let alloc = rt.alloc();
    let _ = check_deeds(&rt, alloc, MemVol::new(alloc), &MESSAGES, Turn::From)?;
    Ok(())
}

#[test]
fn crash_leaves_the_changes_that_were_answered(rt: HostRuntime) -> Result<(), Fail> {
    let alloc = rt.alloc();
    let _ = check_deeds(&rt, alloc, with_messages(alloc)?, &CHANGES, Turn::From)?;
    Ok(())
}

#[test]
fn failed_call_stops_the_place(rt: HostRuntime) -> Result<(), Fail> {
    let alloc = rt.alloc();
    let vol = check_deeds(&rt, alloc, MemVol::new(alloc), &MESSAGES, Turn::Once)?;
    let _ = check_deeds(&rt, alloc, vol, &CHANGES, Turn::Once)?;
    Ok(())
}
