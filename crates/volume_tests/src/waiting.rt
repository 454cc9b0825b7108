//! What nobody was told of waits, and shares a commit with what comes later.

use crate::attempts::reopened;
use crate::deeds::Deed;
use crate::kept::Kept;
use std::alloc::Global;
use std::process::Abort;
use std::test::Fail;
use vol_disk::{Deed as VolDeed, MemVol};

/// By so many bytes files grow here: in each of them there is room for all of a test then, so that only commits sync the logs.
const CHUNK: u32 = 1 << 20;

/// How many syncs there are in a commit.
const SYNCS: usize = 2;

/// So many nanoseconds after the first of what waits was made a tick commits it.
const SECOND: u64 = 1_000_000_000;

/// What is done to a place.
#[derive(Clone, Copy)]
enum Step {
    /// A deed, without a reply.
    Act(Deed),
    /// So many nanoseconds pass.
    Wait(u64),
    /// All that waits is brought to the volume.
    Flush,
}

/// The stream is made.
const MADE: [Step; 1] = [Step::Act(Deed::Make)];

/// The stream is made, and a message of it delivered, all of which is on the volume.
const DELIVERED: [Step; 5] = [
    Step::Act(Deed::Make),
    Step::Act(Deed::MakeConsumer),
    Step::Act(Deed::Publish),
    Step::Act(Deed::Deliver),
    Step::Flush,
];

/// A message is published.
const PUBLISH: [Step; 1] = [Step::Act(Deed::Publish)];

/// A message is published, and time passes twice: two records wait by it, a message and a moment.
const PUBLISH_IN_TIME: [Step; 3] = [Step::Act(Deed::Publish), Step::Wait(1), Step::Wait(1)];

const FLUSH: [Step; 1] = [Step::Flush];

/// What is done to a new place, one thing after the other: first these, then those so often, and then the last.
#[derive(Clone, Copy)]
struct Script<'a> {
    first: &'a [Step],
    again: &'a [Step],
    times: u64,
    last: &'a [Step],
}

/// How many syncs of file 0 a volume was asked for.
fn syncs(vol: &MemVol) -> usize {
    let mut count: usize = 0;
    for call in vol.calls() {
        if call.file == 0 && matches!(&call.deed, VolDeed::Sync) {
            count = count.saturating_add(1);
        }
    }
    count
}

fn take_step(kept: &mut Kept, step: Step) -> Result<(), Fail> {
    match step {
        Step::Act(deed) => Ok(kept.act(deed)?),
        Step::Wait(nanos) => Ok(kept.tick(nanos)?),
        Step::Flush => Ok(kept.flush()?),
    }
}

fn take_steps(kept: &mut Kept, steps: &[Step]) -> Result<(), Fail> {
    for step in steps {
        take_step(kept, *step)?;
    }
    Ok(())
}

fn take_rounds(kept: &mut Kept, steps: &[Step], times: u64) -> Result<(), Fail> {
    for _ in 0..times {
        take_steps(kept, steps)?;
    }
    Ok(())
}

fn carry_out(kept: &mut Kept, script: &Script<'_>) -> Result<(), Fail> {
    take_steps(kept, script.first)?;
    take_rounds(kept, script.again, script.times)?;
    take_steps(kept, script.last)
}

/// A place on a volume of its own.
fn opened(alloc: Global) -> Result<Kept, Fail> {
    match Kept::open(alloc, MemVol::new(alloc).with_chunk(CHUNK)) {
        Ok(kept) => Ok(kept),
        Err((fault, _)) => Err(fault.into()),
    }
}

/// The volume of a place to which that was done.
fn volume_after(alloc: Global, script: &Script<'_>) -> Result<MemVol, Fail> {
    let mut kept = opened(alloc)?;
    carry_out(&mut kept, script)?;
    Ok(kept.into_vol())
}

/// How many syncs of file 0 that brought about.
fn syncs_after(alloc: Global, script: &Script<'_>) -> Result<usize, Fail> {
    let vol = volume_after(alloc, script)?;
    Ok(syncs(&vol))
}

/// How many calls of the volume that brought about.
fn calls_after(alloc: Global, script: &Script<'_>) -> Result<usize, Fail> {
    let vol = volume_after(alloc, script)?;
    Ok(vol.calls().len())
}

/// How many messages a crash leaves behind that.
fn messages_after(alloc: Global, script: &Script<'_>) -> Result<Option<u64>, Fail> {
    let vol = volume_after(alloc, script)?;
    let told = reopened(alloc, &vol, 0)?;
    Ok(told.messages())
}

/// So many publishes, and what comes behind them.
fn published<'a>(again: &'a [Step], times: u64, last: &'a [Step]) -> Script<'a> {
    Script {
        first: &MADE,
        again,
        times,
        last,
    }
}

/// How many syncs so many publishes and a flush bring about.
fn flushed(alloc: Global, times: u64) -> Result<usize, Fail> {
    syncs_after(alloc, &published(&PUBLISH, times, &FLUSH))
}

#[test]
fn unconfirmed_publishes_share_a_commit(rt: HostRuntime) -> Result<(), Fail> {
    let alloc = rt.alloc();
    let one = flushed(alloc, 0)?.saturating_add(SYNCS);
    assert_eq!(&rt; flushed(alloc, 1)?, one);
    assert_eq!(&rt; flushed(alloc, 3)?, one);
    Ok(())
}

#[test]
fn unconfirmed_publish_waits_for_a_flush(rt: HostRuntime) -> Result<(), Fail> {
    let alloc = rt.alloc();
    let none = syncs_after(alloc, &published(&PUBLISH, 0, &[]))?;
    assert_eq!(&rt; syncs_after(alloc, &published(&PUBLISH, 1, &[]))?, none);
    assert_eq!(&rt;
        messages_after(alloc, &published(&PUBLISH, 1, &[]))?,
        Some(0)
    );
    assert_eq!(&rt;
        messages_after(alloc, &published(&PUBLISH, 1, &FLUSH))?,
        Some(1)
    );
    Ok(())
}

/// How many calls of the volume it brings about that so many nanoseconds pass so often.
fn ticked(alloc: Global, times: u64, nanos: u64) -> Result<usize, Fail> {
    calls_after(alloc, &published(&[Step::Wait(nanos)], times, &[]))
}

#[test]
fn ticks_write_nothing(rt: HostRuntime) -> Result<(), Fail> {
    let alloc = rt.alloc();
    let none = ticked(alloc, 0, 1)?;
    assert_eq!(&rt; ticked(alloc, 3000, 1)?, none);
    assert_eq!(&rt; ticked(alloc, 10, SECOND)?, none);
    Ok(())
}

/// What is done to a message that was delivered, behind which time passes so.
fn waited<'a>(deed: &'a [Step], last: &'a [Step]) -> Script<'a> {
    Script {
        first: &DELIVERED,
        again: deed,
        times: 1,
        last,
    }
}

/// Checks how many syncs of file 0 these stretches of time bring about behind what was done.
fn check_syncs(
    rt: &impl Abort,
    alloc: Global,
    deed: &[Step],
    stretches: &[Step],
    count: usize,
) -> Result<(), Fail> {
    let before = syncs_after(alloc, &waited(deed, &[]))?;
    let after = syncs_after(alloc, &waited(deed, stretches))?;
    assert_eq!(rt; after.saturating_sub(before), count);
    Ok(())
}

/// Checks that what was done waits for a second, and is committed once then.
fn check_second(rt: &impl Abort, alloc: Global, deed: &[Step]) -> Result<(), Fail> {
    let almost = Step::Wait(SECOND - 1);
    let second = Step::Wait(SECOND);
    check_syncs(rt, alloc, deed, &[almost], 0)?;
    check_syncs(rt, alloc, deed, &[second], SYNCS)?;
    check_syncs(rt, alloc, deed, &[almost, Step::Wait(1)], SYNCS)?;
    check_syncs(rt, alloc, deed, &[second, second, second], SYNCS)
}

#[test]
fn tick_commits_a_publish_that_waited_a_second(rt: HostRuntime) -> Result<(), Fail> {
    check_second(&rt, rt.alloc(), &PUBLISH)
}

#[test]
fn tick_commits_an_acknowledgement_that_waited_a_second(rt: HostRuntime) -> Result<(), Fail> {
    check_second(&rt, rt.alloc(), &[Step::Act(Deed::Acknowledge)])
}

#[test]
fn publish_outlives_a_crash_once_it_waited_a_second(rt: HostRuntime) -> Result<(), Fail> {
    let alloc = rt.alloc();
    let almost = [Step::Wait(SECOND - 1)];
    let second = [Step::Wait(SECOND)];
    assert_eq!(&rt; messages_after(alloc, &waited(&PUBLISH, &almost))?, Some(1));
    assert_eq!(&rt; messages_after(alloc, &waited(&PUBLISH, &second))?, Some(2));
    Ok(())
}

#[test]
fn second_begins_anew_after_a_commit(rt: HostRuntime) -> Result<(), Fail> {
    let half = Step::Wait(SECOND / 2);
    let first = [Step::Act(Deed::Publish), half, Step::Flush];
    let next = [Step::Act(Deed::Publish), half];
    let left = messages_after(rt.alloc(), &published(&first, 1, &next))?;
    assert_eq!(&rt; left, Some(1));
    Ok(())
}

#[test]
fn moment_replaces_no_other_record(rt: HostRuntime) -> Result<(), Fail> {
    let alloc = rt.alloc();
    let none = syncs_after(alloc, &published(&PUBLISH_IN_TIME, 0, &[]))?;
    assert_eq!(&rt;
        syncs_after(alloc, &published(&PUBLISH_IN_TIME, 511, &[]))?,
        none
    );
    let all = published(&PUBLISH_IN_TIME, 512, &[]);
    assert_eq!(&rt; syncs_after(alloc, &all)?, none.saturating_add(SYNCS));
    assert_eq!(&rt; messages_after(alloc, &all)?, Some(512));
    Ok(())
}
