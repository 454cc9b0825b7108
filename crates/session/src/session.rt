//! A session: one connection, from the server's information to its end.

ghost use Rattle.std.specs.Prelude.{◌≡◌, ◌<◌, ◌^◌, true, false, vec_len, IfOk};
ghost use Rattle.js_base.specs.Causes.{HasCause};
ghost use Rattle.link_edge.specs.Failings.{HasNoFailings};
ghost use Rattle.js_api.specs.Clients.{new_client};
ghost use Rattle.session.specs.Host.{is_plain};
ghost use Rattle.session.specs.Talk.{greeting};
ghost use Rattle.session.specs.Giving.{Gives, IsLinkFault};
ghost use Rattle.session.specs.Failing.{FailsGiving};
ghost use Rattle.session.specs.Session.{Converses, Serves};

use crate::ending::{Ended, Limits};
use crate::giving::{GiveFault, give_frame};
use crate::turn::{Course, take_turn};
use js_api::Desk;
use js_base::{Frame, NoMemory};
use link_edge::{Clock, Link};
use std::alloc::Global;

/// How many bytes of the input are taken at once.
const PIECE: usize = 65_536;

/// Gives the server's information, with which each session begins.
fn greet<L: Link>(
    alloc: Global,
    link: &mut L,
    limits: &Limits,
    session: u64,
) -> Result<(), GiveFault>
    ensures given { Gives result (L.given link.old) (L.given link.new) (greeting limits.now session) }
    ensures answered { L.answered link.new ≡ L.answered link.old }
    ensures failings { HasNoFailings (L.failings link.old) → FailsGiving result (L.failings link.old) (L.failings link.new) }
    ensures cause { HasCause (L.faults link.old) (L.faults link.new) (IsLinkFault result) }
{
    let host = match limits.host.clone() {
        Ok(host) => host,
        Err(_) => return Err(GiveFault::NoMemory),
    };
    let information = Frame::Info {
        client_id: session,
        host,
        port: limits.port,
    };
    give_frame(alloc, link, &information)
}

/// Room for a piece of the input.
fn new_room(alloc: Global) -> Result<Vec<u8>, NoMemory>
    ensures room { IfOk result (λ room. 0 < vec_len room) }
{
    match vec![in alloc; 0; PIECE] {
        Ok(room) => Ok(room),
        Err(_) => Err(NoMemory),
    }
}

/// Greets, and takes turns until the session ends.
fn converse<D: Desk, L: Link, C: Clock>(
    alloc: Global,
    desk: &mut D,
    link: &mut L,
    clock: &mut C,
    limits: &Limits,
    session: u64,
) -> Ended
    requires is_open { (D.client desk.old).is_open ≡ true }
    requires client { D.client desk.old ≡ new_client session }
    requires input { limits.now.input < 2 ^ 62 }
    ensures converses { Converses D.made limits.now session desk.old desk.new (L.answered link.old) (L.answered link.new)
        (L.given link.old) (L.given link.new) (C.to_come clock.old) (C.to_come clock.new) (L.failings link.old) (L.failings link.new) result }
    ensures session { (D.client desk.new).session ≡ session }
    ensures is_open { (D.client desk.new).is_open ≡ true }
    ensures cause { HasCause (L.faults link.old) (L.faults link.new) (result ≡ Ended.LinkFault) }
{
    let mut room = match new_room(alloc) {
        Ok(room) => room,
        Err(_) => return Ended::NoMemory,
    };
    match greet(alloc, link, limits, session) {
        Ok(()) => {}
        Err(fault) => return Ended::from(fault),
    }
    let mut course = Course::new(alloc, limits);
    while course.taken < limits.input && course.quiets < limits.quiet {
        match take_turn(alloc, desk, link, clock, limits, &mut course, &mut room) {
            Ok(()) => {}
            Err(ended) => return ended,
        }
    }
    Ended::InputLimit
}

/// Serves a link over a desk that has no open session, from the session's opening to its end. At each end the session is closed in the desk; if the
/// numbers of turns are used up then, the router keeps it. The host of the limits is a text that needs no escape in JSON.
pub fn serve_link<D: Desk, L: Link, C: Clock>(
    alloc: Global,
    desk: &mut D,
    link: &mut L,
    clock: &mut C,
    limits: &Limits,
) -> Ended
    requires closed { (D.client desk.old).is_open ≡ false }
    requires input { limits.now.input < 2 ^ 62 }
    requires host { is_plain limits.now.host ≡ true }
    ensures serves { Serves D.made limits.now desk.old desk.new (L.answered link.old) (L.answered link.new)
        (L.given link.old) (L.given link.new) (C.to_come clock.old) (C.to_come clock.new) (L.failings link.old) (L.failings link.new) result }
    ensures closed { (D.client desk.new).is_open ≡ false }
    ensures cause { HasCause (L.faults link.old) (L.faults link.new) (result ≡ Ended.LinkFault) }
{
    match desk.open() {
        Ok(session) => {
            let ended = converse(alloc, desk, link, clock, limits, session);
            let _ = desk.close();
            ended
        }
        Err(fault) => Ended::from(fault),
    }
}
