//! A client's deed, while each call of the volume fails in turn, and while the volume stops at each call: what was confirmed is found by whoever runs the
//! server again over what a crash leaves.

use crate::deeds::{self, Deed, QUESTIONS};
use crate::failing::{Failing, is_untroubled, opening_calls, with_failing};
use crate::runs::{Outcome, after, gave, gives, has, serve, volume_of, with_stream};
use std::alloc::Global;
use std::process::Abort;
use std::sync::Wait;
use std::test::Fail;
use std::thread::Threads;
use vol_disk::MemVol;

/// More than the calls of a deed.
const MANY: u64 = 60;

/// What came of a deed.
#[derive(Clone, Copy, PartialEq, Eq)]
enum Came {
    /// It was answered, and is on the volume.
    Done,
    /// It was told that the volume failed, where that is told; or the volume failed later, and the answer had confirmed nothing.
    Undone,
    /// Something else, which is wrong.
    Wrong,
}

/// What is told of the stream before a deed, and after it.
#[derive(Drop)]
struct Sides {
    before: Outcome,
    after: Outcome,
}

/// What came of a deed in a run.
fn came_of(ran: &Outcome, deed: &Deed) -> Came {
    if gives(ran, deed.answer) {
        Came::Done
    } else if gives(ran, deed.refusal)
        || gives(ran, deed.stop)
        || !deed.is_confirmed && gave(ran, deed.answer)
    {
        Came::Undone
    } else {
        Came::Wrong
    }
}

/// Does it over the volume as it reads, while such calls fail.
fn act(
    rt: &(impl Threads + Wait + Sync),
    alloc: Global,
    start: &MemVol,
    deed: &Deed,
    failing: Failing,
    number: u64,
) -> Result<Outcome, Fail> {
    let vols = vec![in alloc; with_failing(alloc, start, failing, number)?]?;
    serve(rt, alloc, vols, deed.said)
}

/// What a run tells over what a crash leaves of the volume, as the number picks it.
fn told(
    rt: &(impl Threads + Wait + Sync),
    alloc: Global,
    vol: &MemVol,
    pick: u64,
) -> Result<Outcome, Fail> {
    serve(rt, alloc, vec![in alloc; vol.image(pick)?]?, QUESTIONS)
}

/// What is told after the deed, if no call fails.
fn told_after(
    rt: &(impl Threads + Wait + Sync),
    alloc: Global,
    start: &MemVol,
    deed: &Deed,
) -> Result<Outcome, Fail> {
    let ran = act(rt, alloc, start, deed, Failing::Onward, u64::MAX)?;
    told(rt, alloc, volume_of(&ran)?, 1)
}

fn sides_of(
    rt: &(impl Threads + Wait + Sync),
    alloc: Global,
    start: &MemVol,
    deed: &Deed,
) -> Result<Sides, Fail> {
    Ok(Sides {
        before: told(rt, alloc, start, 1)?,
        after: told_after(rt, alloc, start, deed)?,
    })
}

impl Sides {
    /// Whether the deed is shown after it, and not before.
    fn show(&self, deed: &Deed) -> bool {
        has(self.after.given.as_slice(), deed.shown)
            && !has(self.before.given.as_slice(), deed.shown)
    }

    /// Whether what is told fits what came of the deed.
    fn fit(&self, told: &Outcome, came: Came) -> bool {
        let is_after = told.given.as_slice() == self.after.given.as_slice();
        match came {
            Came::Done => is_after,
            Came::Undone => is_after || told.given.as_slice() == self.before.given.as_slice(),
            Came::Wrong => false,
        }
    }
}

/// Whether each image of the run's volume holds what stood before or after the deed, and the latter if it was answered.
fn holds_one(
    rt: &(impl Threads + Wait + Sync),
    alloc: Global,
    ran: &Outcome,
    came: Came,
    sides: &Sides,
) -> Result<bool, Fail> {
    let vol = volume_of(ran)?;
    for pick in [0, 1, 5] {
        let told = told(rt, alloc, vol, pick)?;
        if !sides.fit(&told, came) {
            return Ok(false);
        }
    }
    Ok(true)
}

/// Does it again and again, while each of its calls fails in turn, until none does. At least one can fail.
fn check_calls(
    rt: &(impl Abort + Threads + Wait + Sync),
    alloc: Global,
    start: &MemVol,
    deed: &Deed,
    failing: Failing,
) -> Result<(), Fail> {
    let sides = sides_of(rt, alloc, start, deed)?;
    assert!(rt; sides.show(deed));
    let first = opening_calls(rt, alloc, start)?;
    for number in 0..MANY {
        let ran = act(
            rt,
            alloc,
            start,
            deed,
            failing,
            first.saturating_add(number),
        )?;
        let came = came_of(&ran, deed);
        assert!(rt; holds_one(rt, alloc, &ran, came, &sides)?, "{number}");
        if is_untroubled(&ran) {
            assert!(rt; came == Came::Done && number > 0, "{number}");
            return Ok(());
        }
    }
    Err("there are more calls")?
}

/// Does it so while one call fails, and then while all from one on do.
fn check(
    rt: &(impl Abort + Threads + Wait + Sync),
    alloc: Global,
    start: &MemVol,
    deed: &Deed,
) -> Result<(), Fail> {
    check_calls(rt, alloc, start, deed, Failing::Once)?;
    check_calls(rt, alloc, start, deed, Failing::Onward)
}

/// A volume with the stream, for which a client said this.
fn orders(rt: &(impl Threads + Wait + Sync), alloc: Global, said: &[u8]) -> Result<MemVol, Fail> {
    with_stream(rt, alloc, "ORDERS", "orders.*", said)
}

#[test]
fn stream_that_is_made(rt: HostRuntime) -> Result<(), Fail> {
    let alloc = rt.alloc();
    check(&rt, alloc, &MemVol::new(alloc), &deeds::MAKE_STREAM)
}

#[test]
fn consumer_that_is_made(rt: HostRuntime) -> Result<(), Fail> {
    let alloc = rt.alloc();
    check(&rt, alloc, &orders(&rt, alloc, b"")?, &deeds::MAKE_CONSUMER)
}

#[test]
fn publish(rt: HostRuntime) -> Result<(), Fail> {
    let alloc = rt.alloc();
    check(
        &rt,
        alloc,
        &orders(&rt, alloc, deeds::CONSUMER)?,
        &deeds::PUBLISH,
    )
}

#[test]
fn publish_with_an_id(rt: HostRuntime) -> Result<(), Fail> {
    let alloc = rt.alloc();
    check(
        &rt,
        alloc,
        &orders(&rt, alloc, deeds::CONSUMER_AND_MESSAGE)?,
        &deeds::PUBLISH_WITH_ID,
    )
}

#[test]
fn purge(rt: HostRuntime) -> Result<(), Fail> {
    let alloc = rt.alloc();
    check(
        &rt,
        alloc,
        &orders(&rt, alloc, deeds::CONSUMER_AND_MESSAGES)?,
        &deeds::PURGE,
    )
}

#[test]
fn delivery(rt: HostRuntime) -> Result<(), Fail> {
    let alloc = rt.alloc();
    check(
        &rt,
        alloc,
        &orders(&rt, alloc, deeds::CONSUMER_AND_MESSAGES)?,
        &deeds::PULL,
    )
}

#[test]
fn acknowledgement(rt: HostRuntime) -> Result<(), Fail> {
    let alloc = rt.alloc();
    check(
        &rt,
        alloc,
        &after(
            &rt,
            alloc,
            orders(&rt, alloc, deeds::CONSUMER_AND_MESSAGES)?,
            deeds::PULL.said,
        )?,
        &deeds::ACKNOWLEDGE,
    )
}

#[test]
fn update(rt: HostRuntime) -> Result<(), Fail> {
    let alloc = rt.alloc();
    check(
        &rt,
        alloc,
        &orders(&rt, alloc, deeds::CONSUMER_AND_MESSAGES)?,
        &deeds::UPDATE,
    )
}

#[test]
fn drop_of_the_stream(rt: HostRuntime) -> Result<(), Fail> {
    let alloc = rt.alloc();
    check(
        &rt,
        alloc,
        &orders(&rt, alloc, deeds::CONSUMER_AND_MESSAGES)?,
        &deeds::DROP,
    )
}
