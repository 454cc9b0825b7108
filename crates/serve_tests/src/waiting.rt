//! A stream whose volume waits in a sync, while another stream is published to.

use crate::gates::ServedGate;
use crate::runs::{Outcome, TWO_WORKERS, door_of, gives, serve_over, volumes_after};
use crate::talks::{FIRST, MAKE_TWO, SECOND};
use link_edge::{MemDoor, MemLink};
use std::alloc::Global;
use std::sync::atomic::AtomicBool;
use std::sync::{Arc, Wait};
use std::test::Fail;
use std::thread::Threads;
use vol_disk::{HoldVol, MemVol};
use volume_place::VolumePlace;

/// How many turns a sync waits at most: far more than another worker needs to serve its link.
const TURNS: u64 = 2_000_000;

/// A publish to the stream whose volume waits.
const TO_SLOW: &[u8] =
    b"CONNECT {\"headers\":true,\"verbose\":false}\r\nSUB _I.1 1\r\nPUB slow _I.1 1\r\nx\r\n";

/// A publish to the other one, with a reply. Many without a reply come behind it.
const TO_QUICK: &[u8] =
    b"CONNECT {\"headers\":true,\"verbose\":false}\r\nSUB _I.2 2\r\nPUB quick _I.2 1\r\ny\r\n";

/// One of these.
const ONE_MORE: &[u8] = b"PUB quick 1\r\nz\r\n";

/// How many there are.
const MORE: usize = 200;

/// The answer to the publish to the stream whose volume waits.
const SLOW_ANSWER: &[u8] = b"MSG _I.1 1 25\r\n{\"seq\":1,\"stream\":\"SLOW\"}\r\n";

/// The answer to the other one.
const QUICK_ANSWER: &[u8] = b"MSG _I.2 2 26\r\n{\"seq\":1,\"stream\":\"QUICK\"}\r\n";

/// The volumes of both streams. The syncs of the second one's log wait for the flag.
fn held_volumes(
    alloc: Global,
    vols: Vec<MemVol>,
    flag: &Arc<AtomicBool, Global>,
) -> Result<Vec<HoldVol>, Fail> {
    let mut held = Vec::new(alloc);
    let mut turns = 0;
    for vol in vols {
        held.push(HoldVol::new(vol, 0, turns, Arc::try_clone(flag)?))?;
        turns = TURNS;
    }
    Ok(held)
}

/// All that the client of the other stream says.
fn much_to_quick(alloc: Global) -> Result<Vec<u8>, Fail> {
    let mut said = Vec::from_slice(alloc, TO_QUICK)?;
    for _ in 0..MORE {
        said.extend_from_slice(ONE_MORE)?;
    }
    Ok(said)
}

/// Whether the link was answered this in the session 1 or 2.
fn is_answered(link: &MemLink, answer: &[u8]) -> bool {
    gives(link, FIRST, answer) || gives(link, SECOND, answer)
}

/// Runs the server over volumes that wait.
fn serve_held<W: Threads + Wait + Sync>(
    rt: &W,
    alloc: Global,
    door: MemDoor,
    vols: Vec<HoldVol>,
    gate: &ServedGate,
) -> Result<Outcome<MemDoor, HoldVol>, Fail> {
    serve_over::<VolumePlace<HoldVol>, MemDoor, ServedGate, W>(
        rt,
        alloc,
        TWO_WORKERS,
        door,
        vols,
        gate,
    )
}

/// The first link publishes to the stream whose volume waits, and this ends once the second one, which publishes to the other stream, was served. So the
/// second link is back before the first. If one lock stood round both streams, or if one thread did the work of both workers, the wait would come to its
/// last turn, and the first link would be back before the second, which has hundreds of messages to publish after it got the lock.
#[test]
fn stream_that_waits_holds_no_other(rt: HostRuntime) -> Result<(), Fail> {
    let alloc = rt.alloc();
    let made = volumes_after(&rt, alloc, MAKE_TWO)?;
    let flag = Arc::new(alloc, AtomicBool::new(true))?;
    let vols = held_volumes(alloc, made, &flag)?;
    let to_quick = much_to_quick(alloc)?;
    let door = door_of(alloc, &[TO_SLOW, to_quick.as_slice()])?;
    let gate = ServedGate::new(flag);
    let ran = serve_held(&rt, alloc, door, vols, &gate)?;
    assert_eq!(rt; ran.finish.status, 0);
    assert_eq!(rt; ran.finish.vols.len(), 2);
    let [quick, slow] = ran.finish.door.back() else {
        return Err("two links come back")?;
    };
    assert!(rt; is_answered(quick, QUICK_ANSWER));
    assert!(rt; is_answered(slow, SLOW_ANSWER));
    Ok(())
}
