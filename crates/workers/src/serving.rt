//! Many workers serve the links of one door over one hub.

ghost use Rattle.std.specs.Prelude.{◌≡◌, ◌<◌, ◌≤◌, ◌+◌, ◌^◌, [], IfSome, Some, false, is_none, length, reverse, true, vec_capacity};
ghost use Rattle.std.specs.List.{AllByRecursion, AllZip, list_any};
ghost use Rattle.session.specs.Host.{is_plain};
ghost use Rattle.shared_desk.specs.Passes.{IsPassOf};
ghost use Rattle.workers.specs.Serving.{Serves};
ghost use Rattle.workers.specs.Working.{HasPass, IsHired, IsIdle, Worked};

use crate::beginning::Beginning;
use crate::board::Board;
use crate::doorway::{Doorway, Stop};
use crate::lobby::Lobby;
use crate::worker::{Duty, Worker, Workplace};
use link_edge::{Clock, Door, Gate};
use place_engine::Place;
use session::Limits;
use shared_desk::{Hub, Pass};
use std::alloc::Global;
use std::marker::Brand;
use std::sync::Wait;
use std::sync::ledger::{Blank, Share};
use std::thread::{self, Threads};
use tcp_edge::Rings;

/// How a service ended.
#[derive(Clone, Copy, Debug, PartialEq, Eq)]
pub enum Came {
    /// Memory ran out before the door was asked.
    Unbegun,
    /// No more links came, whether a session ended for want of numbers, and whether memory was wanted.
    Served {
        stop: Stop,
        worn: bool,
        starved: bool,
    },
}

/// What is left of a service: the door, all passes, and how it ended.
#[derive(Drop)]
pub struct Service<R, P> {
    pub door: R,
    pub passes: Vec<Pass<P>>,
    pub came: Came,
}

/// All memory that the workers take before the door is asked.
struct Rooms<P: Place, C: Clock, B: Beginning> {
    board: Board,
    clocks: Vec<C>,
    workers: Vec<Worker<P, C, B>>,
}

impl<P: Place, C: Clock + Drop, B: Beginning> Rooms<P, C, B> {
    /// The memory for so many workers. `None` is want of it.
    fn reserve(alloc: Global, clock: &C, workers: usize) -> Option<Rooms<P, C, B>>
        ensures clocks { IfSome result (λ r. length r.clocks.items ≡ workers) }
        ensures none { IfSome result (λ r. (r.workers.items ≡ []) × (workers ≤ vec_capacity r.workers)) }
    {
        let mut clocks = Vec::with_capacity(alloc, workers).ok()?;
        for _ in 0..workers {
            clocks.push_reserved(clock.twin().ok()?);
        }
        Some(Rooms {
            board: Board::new(alloc, workers).ok()?,
            clocks,
            workers: Vec::with_capacity(alloc, workers).ok()?,
        })
    }
}

/// Gives each clock and each pass to a worker, the last ones first. The first that is hired, with the last pass, lets time pass; the others serve links.
fn hire<P: Place, C: Clock, B: Beginning>(
    passes: &mut Vec<Pass<P>>,
    clocks: Vec<C>,
    all: &mut Share<B>,
    workers: &mut Vec<Worker<P, C, B>>,
)
    requires each { length clocks.items ≡ length passes.old.items }
    requires parts { all.old.parts ≡ length passes.old.items }
    requires amount { all.old.amount ≡ 0 }
    requires none { (workers.old.items ≡ []) × (length passes.old.items ≤ vec_capacity workers.old) }
    ensures hired { AllZip (λ scene w. IsHired scene w.pass w.share.parts w.share.amount w.worn) (reverse passes.old.items) workers.new.items }
    ensures left { (passes.new.items ≡ []) × (vec_capacity passes.new ≡ vec_capacity passes.old) }
    ensures spent { (all.new.parts ≡ 0) × (all.new.amount ≡ 0) }
{
    let mut clocks = clocks;
    while let Some(clock) = clocks.pop() {
        let pass = passes.take_last();
        let number = u32::try_from(passes.len()).unwrap_or(u32::MAX);
        let duty = if workers.is_empty() {
            Duty::Timers
        } else {
            Duty::Links
        };
        workers.push_reserved(Worker {
            number,
            duty,
            pass: Some(pass),
            clock,
            share: all.split_off(1, 0),
            passed: 0,
            worn: false,
            starved: false,
        });
    }
    clocks.destroy_empty();
}

/// All workers work, each in a thread of its own, until no more links come.
fn work_all<P: Place, R: Door, C: Clock, G: Gate, B: Beginning, W: Threads + Wait + Sync>(
    place: &Workplace<'_, P, G, W>,
    lobby: &Lobby<'_, R, B>,
    workers: &mut Vec<Worker<P, C, B>>,
)
where
    R::Link: Rings + Send,
    P::Vol: Sync,
    P: Send + Sync,
    C: Send,
    G: Sync,
    B: Send + Sync,
    R: Send,
    requires idle { AllByRecursion (λ w. IsIdle place.now.hub.now w.pass w.share.parts w.share.amount) workers.old.items }
    requires some { 0 < length workers.old.items }
    requires limits { place.now.limits.now ≡ B.limits }
    requires input { place.now.limits.now.input < 2 ^ 62 }
    requires host { is_plain place.now.limits.now.host ≡ true }
    ensures idle { AllByRecursion (λ w. IsIdle place.now.hub.now w.pass w.share.parts w.share.amount) workers.new.items }
    ensures worked { AllZip (λ was is. Worked B.limits was.pass is.pass was.worn is.worn) workers.old.items workers.new.items }
{
    let threads = workers.len();
    thread::for_each_mut(
        place.rt,
        workers.as_mut_slice(),
        threads,
        &|_, worker| worker.work(place, lobby),
    );
}

/// All workers work, until no more links come through the doorway.
fn work_on<P: Place, R: Door, C: Clock, G: Gate, B: Beginning, W: Threads + Wait + Sync>(
    place: &Workplace<'_, P, G, W>,
    board: &Board,
    workers: &mut Vec<Worker<P, C, B>>,
    doorway: Doorway<R, B>,
) -> Doorway<R, B>
where
    R::Link: Rings + Send,
    P::Vol: Sync,
    P: Send + Sync,
    C: Send,
    G: Sync,
    B: Send + Sync,
    R: Send,
    requires idle { AllByRecursion (λ w. IsIdle place.now.hub.now w.pass w.share.parts w.share.amount) workers.old.items }
    requires some { 0 < length workers.old.items }
    requires limits { place.now.limits.now ≡ B.limits }
    requires input { place.now.limits.now.input < 2 ^ 62 }
    requires host { is_plain place.now.limits.now.host ≡ true }
    ensures idle { AllByRecursion (λ w. IsIdle place.now.hub.now w.pass w.share.parts w.share.amount) workers.new.items }
    ensures worked { AllZip (λ was is. Worked B.limits was.pass is.pass was.worn is.worn) workers.old.items workers.new.items }
    ensures stopped { is_none result.stop ≡ false }
{
    let mut doorway = doorway;
    // no worker leaves while the door is open, and no clause says so across threads: the loop does
    for _ in place.rt.forever() {
        let lobby = Lobby::new(doorway, board);
        work_all(place, &lobby, workers);
        doorway = lobby.into_doorway();
        if !doorway.is_open() {
            return doorway;
        }
    }
    unreachable!()
}

/// Ends the workers, and takes their passes in their order. It tells whether a session ended for want of numbers, and whether memory was wanted.
fn gather<P: Place, C: Clock + Drop, B: Beginning>(
    workers: Vec<Worker<P, C, B>>,
    passes: &mut Vec<Pass<P>>,
    all: &mut Share<B>,
) -> (bool, bool)
    requires none { (passes.old.items ≡ []) × (length workers.items ≤ vec_capacity passes.old) }
    requires idle { AllByRecursion (λ w. HasPass w.pass w.share.parts w.share.amount) workers.items }
    ensures gathered { AllZip (λ w scene. w.pass ≡ Some scene) (reverse workers.items) passes.new.items }
    ensures worn { result.0 ≡ list_any (λ w. w.worn) (reverse workers.items) }
    ensures parts { all.new.parts ≡ all.old.parts + length workers.items }
    ensures amount { all.new.amount ≡ all.old.amount }
{
    let mut workers = workers;
    let mut worn = false;
    let mut starved = false;
    while let Some(worker) = workers.pop() {
        let (pass, share, one_worn, one_starved) = worker.retire();
        passes.push_reserved(pass);
        all.merge(share);
        worn |= one_worn;
        starved |= one_starved;
    }
    workers.destroy_empty();
    (worn, starved)
}

/// Serves under one name for the run's beginning.
fn serve_over<
    P: Place + Send + Sync,
    R: Door + Send,
    C: Clock + Send + Drop,
    G: Gate + Sync,
    B: Beginning + Send + Sync,
    W: Threads + Wait + Sync,
>(
    place: &Workplace<'_, P, G, W>,
    blank: Blank,
    passes: Vec<Pass<P>>,
    door: R,
    accepts: Option<u64>,
    clock: &C,
) -> Service<R, P>
where
    R::Link: Rings + Send,
    P::Vol: Sync,
    requires name { blank.name ≡ B.name }
    requires parts { (blank.parts ≡ B.parts) × (B.parts ≡ length passes.items) }
    requires begun { B.begun ≡ record { answered = R.answered door; gave = R.gave door; back = R.back door; faults = R.faults door } }
    requires limits { place.now.limits.now ≡ B.limits }
    requires accepts { B.accepts ≡ accepts }
    requires own { AllByRecursion (IsPassOf place.now.hub.now) passes.items }
    requires some { 0 < length passes.items }
    requires input { place.now.limits.now.input < 2 ^ 62 }
    requires host { is_plain place.now.limits.now.host ≡ true }
    ensures serves { Serves B.limits accepts place.now.hub.now passes.items result.passes.items
        (record { answered = R.answered door; gave = R.gave door; back = R.back door; faults = R.faults door })
        (record { answered = R.answered result.door; gave = R.gave result.door; back = R.back result.door; faults = R.faults result.door })
        result.came }
{
    let Some(rooms) = Rooms::<P, C, B>::reserve(place.alloc, clock, passes.len()) else {
        return Service {
            door,
            passes,
            came: Came::Unbegun,
        };
    };
    let Rooms {
        board,
        clocks,
        mut workers,
    } = rooms;
    let mut passes = passes;
    let (out, mut all) = blank.open::<B>();
    hire(&mut passes, clocks, &mut all, &mut workers);
    let doorway = Doorway::<R, B>::new(door, accepts, out);
    let mut doorway = work_on(place, &board, &mut workers, doorway);
    let (worn, starved) = gather(workers, &mut passes, &mut all);
    doorway.audit(&mut all);
    let (door, stop, seen_worn, seen_starved) = doorway.into_parts();
    let Some(stop) = stop else { unreachable!() };
    Service {
        door,
        passes,
        came: Came::Served {
            stop,
            worn: seen_worn | worn,
            starved: seen_starved | starved,
        },
    }
}

/// Serves the links that the door gives out, `accepts` of them at most if that is some number, by a worker for each pass of the hub but the last, in threads
/// of their own, each with a twin of the clock. It ends once the door is closed or has failed, or as many links were accepted, and all that were accepted
/// are given back. A worker passes the gate before and after each link. One more thread, with the last pass, lets time pass at each place where a timer
/// fires, at the latest some 20 milliseconds after that, unless it waits for its turn at another place or at the catalog.
pub fn serve_all<
    P: Place + Send + Sync,
    R: Door + Send,
    C: Clock + Send + Drop,
    G: Gate + Sync,
    W: Threads + Wait + Sync,
>(
    rt: &W,
    alloc: Global,
    hub: &Hub<P>,
    passes: Vec<Pass<P>>,
    door: R,
    accepts: Option<u64>,
    clock: &C,
    gate: &G,
    limits: &Limits,
) -> Service<R, P>
where
    R::Link: Rings + Send,
    P::Vol: Sync,
    requires own { AllByRecursion (IsPassOf hub.now) passes.items }
    requires some { 1 < length passes.items }
    requires input { limits.now.input < 2 ^ 62 }
    requires host { is_plain limits.now.host ≡ true }
    ensures serves { Serves limits.now accepts hub.now passes.items result.passes.items
        (record { answered = R.answered door; gave = R.gave door; back = R.back door; faults = R.faults door })
        (record { answered = R.answered result.door; gave = R.gave result.door; back = R.back result.door; faults = R.faults result.door })
        result.came }
{
    let place = Workplace {
        rt,
        alloc,
        hub,
        gate,
        limits,
    };
    let blank = Blank::new(passes.len() as u64);
    serve_over::<P, R, C, G, Brand, W>(&place, blank, passes, door, accepts, clock)
}
