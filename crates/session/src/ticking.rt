//! The end of a turn: the tick, and the giving of all that waits.

ghost use Rattle.std.specs.Prelude.{◌≡◌, true};
ghost use Rattle.js_base.specs.Causes.{HasCause};
ghost use Rattle.link_edge.specs.Failings.{HasNoFailings};
ghost use Rattle.session.specs.Failing.{FailsIn};
ghost use Rattle.session.specs.Manners.{peer_of};
ghost use Rattle.session.specs.Ticking.{EndsTurn};

use crate::ending::Ended;
use crate::giving::give_all;
use crate::manners::Manners;
use crate::operation::carry_tick;
use crate::parting::part_at;
use js_api::Desk;
use js_base::Moment;
use link_edge::Link;
use std::alloc::Global;

/// Ends a turn: carries out the tick, and gives the bytes that wait and those of the tick.
pub(crate) fn end_turn<D: Desk, L: Link>(
    alloc: Global,
    desk: &mut D,
    link: &mut L,
    manners: Manners,
    now: Moment,
    waiting: &mut Vec<u8>,
) -> Result<(), Ended>
    requires is_open { (D.client desk.old).is_open ≡ true }
    ensures ticks { EndsTurn result D.made (peer_of (D.client desk.old) manners) now desk.old desk.new
        waiting.old.items (L.given link.old) (L.given link.new) }
    ensures client { D.client desk.new ≡ D.client desk.old }
    ensures is_open { (D.client desk.new).is_open ≡ true }
    ensures answered { L.answered link.new ≡ L.answered link.old }
    ensures failings { HasNoFailings (L.failings link.old) → FailsIn result (L.failings link.old) (L.failings link.new) }
    ensures cause { HasCause (L.faults link.old) (L.faults link.new) (result ≡ Err Ended.LinkFault) }
{
    match carry_tick(desk, manners, now, waiting) {
        Ok(()) => {}
        Err(stop) => return Err(part_at(alloc, link, stop, waiting)),
    }
    match give_all(link, waiting.as_slice()) {
        Ok(()) => Ok(()),
        Err(fault) => Err(Ended::from(fault)),
    }
}
