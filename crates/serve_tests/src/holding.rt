//! A worker that is held while another serves.

use crate::runs::{Outcome, TWO_WORKERS, door_of, gives, serve_by, volumes_after};
use crate::talks::{
    FIRST, MAKE_ORDERS, PUBLISH, PUBLISH_ELSEWHERE, PUBLISHED_FIRST, PUBLISHED_FIRST_ELSEWHERE,
    PUBLISHED_SECOND, PUBLISHED_SECOND_ELSEWHERE, SECOND,
};
use link_edge::{HoldGate, MemDoor};
use std::alloc::Global;
use std::process::Abort;
use std::sync::atomic::AtomicBool;
use std::sync::{Arc, Wait};
use std::test::Fail;
use std::thread::Threads;
use vol_disk::MemVol;

/// How many turns a worker is held at most: far more than another needs to come in between.
const TURNS: u64 = 2_000_000;

/// How many runs there are at most until the worker that is held is the one that took the first link.
const TRIES: u32 = 1_000;

/// The order in which two links came back.
#[derive(Clone, Copy, PartialEq, Eq)]
enum Order {
    /// As they had come.
    AsTheyCame,
    /// The second one before the first.
    TurnedRound,
    /// Something else, which is wrong.
    Wrong,
}

/// In which order the links came back, each with the answer to its publish.
fn order_of(door: &MemDoor) -> Order {
    let [one, other] = door.back() else {
        return Order::Wrong;
    };
    if gives(one, FIRST, PUBLISHED_FIRST) && gives(other, SECOND, PUBLISHED_SECOND_ELSEWHERE) {
        Order::AsTheyCame
    } else if gives(one, FIRST, PUBLISHED_FIRST_ELSEWHERE)
        && gives(other, SECOND, PUBLISHED_SECOND)
    {
        Order::TurnedRound
    } else {
        Order::Wrong
    }
}

/// A run for two links while this worker is held until another has served a link.
fn run_held<W: Abort + Threads + Wait + Sync>(
    rt: &W,
    alloc: Global,
    worker: u32,
) -> Result<Outcome<MemDoor, MemVol>, Fail> {
    let door = door_of(alloc, &[PUBLISH, PUBLISH_ELSEWHERE])?;
    let vols = volumes_after(rt, alloc, MAKE_ORDERS)?;
    let flag = Arc::new(alloc, AtomicBool::new(false))?;
    let gate = HoldGate::new(worker, TURNS, flag);
    let ran = serve_by(rt, alloc, TWO_WORKERS, door, vols, &gate)?;
    assert!(rt; gate.is_open());
    Ok(ran)
}

/// The worker that took the first link is held until the second one was answered. Which worker that is nobody can say beforehand: so one after the other is
/// held, until the links come back turned round. In each run both are answered, and all volumes come back.
#[test]
fn link_is_served_while_another_is_held(rt: HostRuntime) -> Result<(), Fail> {
    let alloc = rt.alloc();
    for number in 0..TRIES {
        let ran = run_held(&rt, alloc, number % 2)?;
        assert_eq!(rt; ran.finish.status, 0);
        assert!(rt; ran.printed.is_empty());
        assert_eq!(rt; ran.finish.vols.len(), 2);
        let order = order_of(&ran.finish.door);
        assert!(rt; order != Order::Wrong);
        if order == Order::TurnedRound {
            return Ok(());
        }
    }
    Err("the first link was never held")?
}
