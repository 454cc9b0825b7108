//! The first link that comes, which is served over a desk.

ghost use Rattle.std.specs.Prelude.{◌≡◌, ◌≤◌, ◌<◌, ◌^◌, false, true, IfOk};
ghost use Rattle.js_base.specs.Causes.{HasCause};
ghost use Rattle.js_desk.specs.Solo.{DeskMade};
ghost use Rattle.link_edge.specs.Accepts.{IfGot, gave_after};
ghost use Rattle.link_edge.specs.Reports.{IsFresh};
ghost use Rattle.session.specs.Host.{is_plain};
ghost use Rattle.server.specs.Accepting.{Arrives, Starves};
ghost use Rattle.server.specs.Attending.{IsAwaitedOver, IsServedOver};
ghost use Rattle.server.specs.Running.{pipe_limits, status_of};

use js_base::{Blob, NoMemory};
use js_desk::SoloDesk;
use link_edge::{Accept, Clock, Door};
use place_engine::Place;
use session::{Ended, Limits, serve_link};
use std::alloc::Global;

/// At how many quiet answers in a row the wait for a link ends, and a session over TCP.
pub(crate) const QUIET: u64 = 1_000_000;

/// What came of the waiting for a link.
#[derive(Clone, Copy, Debug, PartialEq, Eq)]
pub struct Outcome {
    pub status: u8,
    /// Whether it is the status of a session.
    pub served: bool,
}

impl Outcome {
    /// The status if no session was served.
    pub fn unserved(status: u8) -> Outcome
        ensures { result ≡ record { status = status; served = false } }
    {
        Outcome {
            status,
            served: false,
        }
    }
}

/// The limits of a session over a pipe. It lets time pass itself.
fn pipe_limits(alloc: Global) -> Result<Limits, NoMemory>
    ensures limits { IfOk result (λ limits. limits ≡ pipe_limits) }
{
    Ok(Limits {
        input: 1 << 30,
        quiet: QUIET,
        host: Blob::of(alloc, b"pipe")?,
        port: 0,
        ticks: true,
    })
}

/// The status that a session's end gives.
pub fn status_of(ended: Ended) -> u8
    ensures status { result ≡ status_of ended }
{
    match ended {
        Ended::Closed => 0,
        Ended::Refused(_) | Ended::Slow(_) | Ended::Stale => 10,
        Ended::LinkFault => 3,
        Ended::InputLimit => 6,
        Ended::NoMemory => 7,
    }
}

/// Accepts until the door's answer is not quiet, a million times at most.
fn accept<R: Door>(door: &mut R) -> Accept<R::Link>
    ensures arrives { Arrives result (R.answered door.old) (R.answered door.new) }
    ensures gave { R.gave door.new ≡ gave_after (R.gave door.old) result }
    ensures back { R.back door.new ≡ R.back door.old }
    ensures starved { Starves result (R.starved door.old) (R.starved door.new) }
    ensures fresh { IfGot result (λ link. IsFresh (R.Link.answered link) (R.Link.given link) (R.Link.failings link) (R.Link.faults link)) }
    ensures cause { HasCause (R.faults door.old) (R.faults door.new) (result ≡ Accept.Failed) }
{
    for _ in 0..QUIET {
        match door.accept() {
            Accept::Quiet => {}
            other => return other,
        }
    }
    Accept::Quiet
}

/// Serves a fresh link over the desk, and gives it back to the door.
fn serve<P: Place, R: Door, C: Clock>(
    alloc: Global,
    desk: &mut SoloDesk<P>,
    door: &mut R,
    link: R::Link,
    clock: &mut C,
    limits: &Limits,
) -> u8
    requires closed { desk.old.client.is_open ≡ false }
    requires fresh { IsFresh (R.Link.answered link) (R.Link.given link) (R.Link.failings link) (R.Link.faults link) }
    requires input { limits.now.input < 2 ^ 62 }
    requires host { is_plain limits.now.host ≡ true }
    ensures served { IsServedOver (DeskMade P.keeps_vol P.holds P.left P.clock P.base P.room_causes.outgrows_log) limits.now desk.old desk.new result (R.gave door.old) (R.back door.old) (R.back door.new)
        (C.to_come clock.old) (C.to_come clock.new) }
    ensures answered { R.answered door.new ≡ R.answered door.old }
    ensures gave { R.gave door.new ≡ R.gave door.old }
    ensures starved { R.starved door.new ≡ R.starved door.old }
    ensures later { R.faults door.old ≤ R.faults door.new }
{
    let mut link = link;
    let ended = serve_link(alloc, desk, &mut link, clock, limits);
    door.done(link);
    status_of(ended)
}

/// Serves the first link that comes over the desk.
pub fn serve_first<P: Place, R: Door, C: Clock>(
    alloc: Global,
    desk: &mut SoloDesk<P>,
    door: &mut R,
    clock: &mut C,
) -> Outcome
    requires closed { desk.old.client.is_open ≡ false }
    ensures awaited { IsAwaitedOver (DeskMade P.keeps_vol P.holds P.left P.clock P.base P.room_causes.outgrows_log) desk.old desk.new result
        (record { answered = R.answered door.old; gave = R.gave door.old; back = R.back door.old; starved = R.starved door.old; faults = R.faults door.old })
        (record { answered = R.answered door.new; gave = R.gave door.new; back = R.back door.new; starved = R.starved door.new; faults = R.faults door.new })
        (C.to_come clock.old) (C.to_come clock.new) }
    ensures later { R.faults door.old ≤ R.faults door.new }
{
    let limits = match pipe_limits(alloc) {
        Ok(limits) => limits,
        Err(_) => return Outcome::unserved(7),
    };
    match accept(door) {
        Accept::Got(link) => Outcome {
            status: serve(alloc, desk, door, link, clock, &limits),
            served: true,
        },
        Accept::Quiet => Outcome::unserved(6),
        Accept::Closed => Outcome::unserved(0),
        Accept::Failed => Outcome::unserved(8),
        Accept::NoMemory => Outcome::unserved(7),
    }
}
