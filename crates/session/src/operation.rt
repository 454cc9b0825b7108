//! One operation of a session, or a tick, from its desk call to what waits for the client after it.

ghost use Rattle.std.specs.Prelude.{◌≡◌, true, OnOk};
ghost use Rattle.session.specs.Carrying.{IsSpelled, Carries};
ghost use Rattle.session.specs.Manners.{peer_of};
ghost use Rattle.session.specs.Peer.{Hears, Ticks, peer_after};

use crate::asking::ask;
use crate::gathering::gather;
use crate::manners::Manners;
use crate::stop::Stop;
use js_api::Desk;
use js_base::Moment;
use nats_frames::Op;
use std::alloc::Global;

/// Carries an operation out, and adds the bytes that it gives: its direct answer, and then what waits for the session. An operation that is
/// refused adds nothing; the last one of a session that is slow, or for which numbers are used up, adds what it gave until then. If memory ran
/// out, what was added is of no use.
pub(crate) fn carry<D: Desk>(
    alloc: Global,
    desk: &mut D,
    op: Op,
    manners: &mut Manners,
    now: Moment,
    into: &mut Vec<u8>,
) -> Result<(), Stop>
    requires spelled { IsSpelled op }
    requires is_open { (D.client desk.old).is_open ≡ true }
    ensures carries { Carries D.made (peer_of (D.client desk.old) manners.old) now (Hears op) desk.old desk.new into.old.items into.new.items result }
    ensures peer { OnOk result (peer_of (D.client desk.new) manners.new ≡ peer_after (peer_of (D.client desk.old) manners.old) (Hears op)) }
    ensures session { (D.client desk.new).session ≡ (D.client desk.old).session }
    ensures is_open { (D.client desk.new).is_open ≡ true }
{
    match ask(alloc, desk, op, manners, now, into) {
        Ok(()) => gather(desk, now, into),
        Err(stop) => Err(stop),
    }
}

/// Carries a tick out: lets time pass at the next place, unless somebody else does, and adds the bytes of what waits for the session after it.
pub(crate) fn carry_tick<D: Desk>(
    desk: &mut D,
    manners: Manners,
    now: Moment,
    into: &mut Vec<u8>,
) -> Result<(), Stop>
    requires is_open { (D.client desk.old).is_open ≡ true }
    ensures carries { Carries D.made (peer_of (D.client desk.old) manners) now Ticks desk.old desk.new into.old.items into.new.items result }
    ensures client { D.client desk.new ≡ D.client desk.old }
    ensures is_open { (D.client desk.new).is_open ≡ true }
{
    if manners.ticks {
        desk.tick(now)?;
    }
    gather(desk, now, into)
}
