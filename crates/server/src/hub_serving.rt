//! A hub on the volumes, by which many workers serve the links that come.

ghost use Rattle.std.specs.Prelude.{◌≡◌, ◌≢◌, ◌≤◌, ◌<◌, IfOk, true, vec_len};
ghost use Rattle.session.specs.Host.{is_plain};
ghost use Rattle.shared_desk.specs.Closing.{ClosesHub};
ghost use Rattle.shared_desk.specs.Opening.{FailsToOpenHub, OpensHub};
ghost use Rattle.server.specs.HubServing.{ServeEnds, found_in, most_of, noted_outcome, outcome_of, serve_limits, stopped_outcome};

use crate::closing::settle;
use crate::listening::{AcceptLimit, Listening};
use crate::refusing::refuse;
use crate::running::Finish;
use crate::serving::{Outcome, QUIET};
use desk_places::Closed;
use js_base::NoMemory;
use link_edge::{Clock, Door, Found, Gate, Notice, Sink};
use place_engine::Place;
use session::Limits;
use shared_desk::{Hub, law_all, law_numbers};
use std::alloc::Global;
use std::sync::Wait;
use std::thread::Threads;
use tcp_edge::Rings;
use workers::{Came, Service, Stop, serve_all};

/// How many bytes a session over TCP takes at most.
const MOST_INPUT: u64 = (1 << 62) - 1;

/// The limits of a session. It does not let time pass itself.
fn serve_limits(alloc: Global, listening: &Listening) -> Result<Limits, NoMemory>
    ensures limits { IfOk result (λ limits. limits ≡ serve_limits listening.now) }
    ensures plain { IfOk result (λ limits. is_plain limits.host ≡ true) }
{
    Ok(Limits {
        input: MOST_INPUT,
        quiet: QUIET,
        host: listening.host(alloc)?,
        port: listening.port(),
        ticks: false,
    })
}

impl AcceptLimit {
    /// The number of links that are accepted at most, if there is one.
    fn most(self) -> Option<u64>
        ensures { result ≡ most_of self }
    {
        match self {
            AcceptLimit::Unlimited => None,
            AcceptLimit::Connections(count) => Some(count),
        }
    }
}

/// What all sessions came to: numbers that were used up stand before want of memory.
fn noted_outcome(worn: bool, starved: bool) -> Outcome
    ensures { result ≡ noted_outcome worn starved }
{
    let status = if worn {
        10
    } else if starved {
        7
    } else {
        0
    };
    Outcome {
        status,
        served: true,
    }
}

/// What the work of all workers came to. A door that failed stands before what a session ended by.
fn outcome_of(came: Came) -> Outcome
    ensures { result ≡ outcome_of came }
{
    match came {
        Came::Unbegun => Outcome::unserved(7),
        Came::Served {
            stop,
            worn,
            starved,
        } => match stop {
            Stop::Failed => Outcome::unserved(8),
            Stop::Closed | Stop::Full => noted_outcome(worn, starved),
        },
    }
}

/// What stood in the places of a hub as they were opened.
fn found_in<P: Place>(hub: &Hub<P>) -> Found
    ensures { result ≡ found_in hub.now }
{
    Found {
        streams: hub.streams_found(),
        messages: hub.messages_found(),
    }
}

/// Opens a hub on the volumes, tells the notice what stood there, serves the links that come by as many workers as are asked for, while one more lets time pass, until the door is closed or has failed or as many links were
/// accepted as are to be, and closes the hub.
pub(crate) fn serve_hub<
    P: Place + Send + Sync,
    R: Door + Send,
    C: Clock + Send + Drop,
    G: Gate + Sync,
    N: Notice,
    O: Sink,
    W: Threads + Wait + Sync,
>(
    rt: &W,
    alloc: Global,
    listening: &Listening,
    door: R,
    vols: Vec<P::Vol>,
    clock: &C,
    gate: &G,
    notice: &mut N,
    out: &mut O,
) -> Finish<R, P::Vol>
where
    R::Link: Rings + Send,
    P::Vol: Sync,
    requires volumes { vec_len vols ≤ 32 }
    requires workers { (0 < listening.now.workers) × (listening.now.workers ≤ 32) }
    ensures ends { ServeEnds
        (OpensHub P.seen P.vol P.holds P.reads P.left P.clock P.faults P.room_causes P.base P.opens P.refuses P.keeps_vol)
        (FailsToOpenHub P.seen P.vol P.holds P.reads P.left P.clock P.faults P.room_causes P.base P.opens P.refuses P.keeps_vol)
        (ClosesHub P.seen P.vol P.holds P.reads P.left P.clock P.base P.keeps_vol)
        listening.now result.status vols.items result.vols.items
        (record {
          door = record { answered = R.answered door; gave = R.gave door; back = R.back door; starved = R.starved door; faults = R.faults door };
          clock = C.to_come clock.now;
          sink = record { written = O.written out.old; faults = O.faults out.old };
        })
        (record {
          door = record { answered = R.answered result.door; gave = R.gave result.door; back = R.back result.door; starved = R.starved result.door; faults = R.faults result.door };
          clock = C.to_come clock.now;
          sink = record { written = O.written out.new; faults = O.faults out.new };
        })
        (N.told notice.old) (N.told notice.new) }
    ensures later { R.faults door ≤ R.faults result.door }
    ensures unprinted { result.status ≢ 4 → result.status ≢ 5 → O.written out.new ≡ O.written out.old }
{
    let Ok(limits) = serve_limits(alloc, listening) else {
        return Finish {
            status: 7,
            door,
            vols,
        };
    };
    match Hub::<P>::open(alloc, vols, listening.workers + 1) {
        Ok((hub, passes)) => {
            notice.opened(found_in(&hub));
            let accepts = listening.accepts.most();
            let service = serve_all(rt, alloc, &hub, passes, door, accepts, clock, gate, &limits);
            let Service { door, passes, came } = service;
            law_numbers();
            law_all();
            let Closed { vols, failed } = hub.close(passes);
            Finish {
                status: settle(out, outcome_of(came), failed),
                door,
                vols,
            }
        }
        Err(fault) => {
            let (status, vols) = refuse(out, fault);
            Finish { status, door, vols }
        }
    }
}
