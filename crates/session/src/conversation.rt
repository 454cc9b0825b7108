//! What a session hears: pieces of the input, the operations that are whole by then, and the tick behind them.

ghost use Rattle.std.specs.Prelude.{◌≡◌, ◌+◌, ◌<◌, ◌^◌, ◌++◌, true, OnOk, length};
ghost use Rattle.js_base.specs.Causes.{HasCause};
ghost use Rattle.link_edge.specs.Failings.{HasNoFailings};
ghost use Rattle.nats_frames.specs.Decoding.{total};
ghost use Rattle.session.specs.Failing.{FailsIn};
ghost use Rattle.session.specs.Manners.{peer_of};
ghost use Rattle.session.specs.Hearing.{CarriesNext, Hears};

use crate::ending::{Ended, Refusal};
use crate::giving::flush;
use crate::manners::Manners;
use crate::operation::carry;
use crate::parting::part_at;
use crate::stop::Stop;
use crate::ticking::end_turn;
use js_api::Desk;
use js_base::Moment;
use link_edge::Link;
use nats_frames::{Decoder, FrameFault};
use std::alloc::Global;

/// Carries out the next operation and adds its bytes, if it is whole: whether it was.
fn carry_next<D: Desk>(
    alloc: Global,
    desk: &mut D,
    decoder: &mut Decoder,
    manners: &mut Manners,
    now: Moment,
    into: &mut Vec<u8>,
) -> Result<bool, Stop>
    requires is_open { (D.client desk.old).is_open ≡ true }
    ensures carries { CarriesNext result D.made now (peer_of (D.client desk.old) manners.old) (peer_of (D.client desk.new) manners.new)
        desk.old desk.new decoder.old decoder.new into.old.items into.new.items }
    ensures total { total decoder.new ≡ total decoder.old }
    ensures session { (D.client desk.new).session ≡ (D.client desk.old).session }
    ensures is_open { (D.client desk.new).is_open ≡ true }
{
    match decoder.next() {
        Ok(Some(op)) => match carry(alloc, desk, op, manners, now, into) {
            Ok(()) => Ok(true),
            Err(stop) => Err(stop),
        },
        Ok(None) => Ok(false),
        Err(FrameFault::NoMemory) => Err(Stop::NoMemory),
        Err(fault) => Err(Stop::Refused(Refusal::Frame(fault))),
    }
}

/// Carries out each operation that is whole, and then the tick, and gives the bytes of all of them.
fn carry_all<D: Desk, L: Link>(
    alloc: Global,
    desk: &mut D,
    link: &mut L,
    decoder: &mut Decoder,
    manners: &mut Manners,
    now: Moment,
) -> Result<(), Ended>
    requires is_open { (D.client desk.old).is_open ≡ true }
    ensures hears { Hears result D.made now (peer_of (D.client desk.old) manners.old) (peer_of (D.client desk.new) manners.new)
        desk.old desk.new decoder.old.bytes decoder.new.bytes (total decoder.old) (L.given link.old) (L.given link.new) }
    ensures fed { OnOk result (total decoder.new ≡ total decoder.old) }
    ensures session { (D.client desk.new).session ≡ (D.client desk.old).session }
    ensures is_open { (D.client desk.new).is_open ≡ true }
    ensures answered { L.answered link.new ≡ L.answered link.old }
    ensures failings { HasNoFailings (L.failings link.old) → FailsIn result (L.failings link.old) (L.failings link.new) }
    ensures cause { HasCause (L.faults link.old) (L.faults link.new) (result ≡ Err Ended.LinkFault) }
{
    let mut out = Vec::new(alloc);
    loop {
        match carry_next(alloc, desk, decoder, manners, now, &mut out) {
            Ok(true) => {}
            Ok(false) => break,
            Err(stop) => return Err(part_at(alloc, link, stop, &mut out)),
        }
        match flush(link, &mut out) {
            Ok(()) => {}
            Err(fault) => return Err(Ended::from(fault)),
        }
    }
    end_turn(alloc, desk, link, *manners, now, &mut out)
}

/// Hears a piece: carries out the operations that are whole by then, and then the tick, and gives the bytes of all of them.
pub(crate) fn hear<D: Desk, L: Link>(
    alloc: Global,
    desk: &mut D,
    link: &mut L,
    decoder: &mut Decoder,
    manners: &mut Manners,
    piece: &[u8],
    now: Moment,
) -> Result<(), Ended>
    requires is_open { (D.client desk.old).is_open ≡ true }
    requires fits { total decoder.old + length piece.now < 2 ^ 62 }
    ensures hears { Hears result D.made now (peer_of (D.client desk.old) manners.old) (peer_of (D.client desk.new) manners.new)
        desk.old desk.new (decoder.old.bytes ++ piece.now) decoder.new.bytes (total decoder.old + length piece.now)
        (L.given link.old) (L.given link.new) }
    ensures fed { OnOk result (total decoder.new ≡ total decoder.old + length piece.now) }
    ensures session { (D.client desk.new).session ≡ (D.client desk.old).session }
    ensures is_open { (D.client desk.new).is_open ≡ true }
    ensures answered { L.answered link.new ≡ L.answered link.old }
    ensures failings { HasNoFailings (L.failings link.old) → FailsIn result (L.failings link.old) (L.failings link.new) }
    ensures cause { HasCause (L.faults link.old) (L.faults link.new) (result ≡ Err Ended.LinkFault) }
{
    match decoder.feed(piece) {
        Ok(()) => {}
        Err(_) => return Err(Ended::NoMemory),
    }
    carry_all(alloc, desk, link, decoder, manners, now)
}
