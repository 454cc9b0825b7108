//! Bytes go out.

ghost use Rattle.std.specs.Prelude.{◌≡◌, ◌<◌, length, IfOk};
ghost use Rattle.js_base.specs.Causes.{HasCause};
ghost use Rattle.link_edge.specs.Failings.{HasNoFailings};
ghost use Rattle.js_base.specs.Framing.{frame as bytes_of};
ghost use Rattle.link_edge.specs.Told.{grown};
ghost use Rattle.link_edge.specs.Gives.{IsGiveWithin};
ghost use Rattle.session.specs.Giving.{Gives, Flushes, IsLinkFault, end_of, some_given};
ghost use Rattle.session.specs.Failing.{FailsGiving};

use crate::ending::Ended;
use js_base::Frame;
use link_edge::{Give, Link};
use nats_frames::write_frame;
use std::alloc::Global;

/// How many bytes may wait until they are given.
const FLUSH: usize = 65_536;

/// Why bytes were not given whole.
#[derive(Clone, Copy)]
pub(crate) enum GiveFault {
    /// The link failed.
    LinkFault,
    NoMemory,
}

/// The end of the session whose bytes they were.
impl From<GiveFault> for Ended {
    ghost from_gives = { λ fault ended. ended ≡ end_of fault };

    fn from(fault: GiveFault) -> Ended {
        match fault {
            GiveFault::LinkFault => Ended::LinkFault,
            GiveFault::NoMemory => Ended::NoMemory,
        }
    }
}

/// Gives a prefix of the bytes, which is not empty, and says how long it is. An `Err` gave none of them.
fn give_some<L: Link>(link: &mut L, bytes: &[u8]) -> Result<usize, GiveFault>
    requires bytes { 0 < length bytes.now }
    ensures within { IfOk result (λ count. IsGiveWithin (Give.Gave count) (length bytes.now)) }
    ensures given { L.given link.new ≡ grown (L.given link.old) (some_given result bytes.now) }
    ensures answered { L.answered link.new ≡ L.answered link.old }
    ensures failings { HasNoFailings (L.failings link.old) → FailsGiving result (L.failings link.old) (L.failings link.new) }
    ensures cause { HasCause (L.faults link.old) (L.faults link.new) (IsLinkFault result) }
{
    match link.give(bytes) {
        Give::Gave(count) => Ok(count),
        Give::Failed => Err(GiveFault::LinkFault),
        Give::NoMemory => Err(GiveFault::NoMemory),
    }
}

/// Gives all of the bytes. An `Err` gave a prefix of them.
pub(crate) fn give_all<L: Link>(link: &mut L, bytes: &[u8]) -> Result<(), GiveFault>
    ensures given { Gives result (L.given link.old) (L.given link.new) bytes.now }
    ensures answered { L.answered link.new ≡ L.answered link.old }
    ensures failings { HasNoFailings (L.failings link.old) → FailsGiving result (L.failings link.old) (L.failings link.new) }
    ensures cause { HasCause (L.faults link.old) (L.faults link.new) (IsLinkFault result) }
{
    let mut at = 0;
    while at < bytes.len() {
        let (_, rest) = bytes.split_at(at);
        match give_some(link, rest) {
            Ok(count) => at += count,
            Err(fault) => return Err(fault),
        }
    }
    Ok(())
}

/// Gives the bytes that wait, if they are many.
pub(crate) fn flush<L: Link>(link: &mut L, waiting: &mut Vec<u8>) -> Result<(), GiveFault>
    ensures flushes { Flushes result (L.given link.old) (L.given link.new) waiting.old.items waiting.new.items }
    ensures answered { L.answered link.new ≡ L.answered link.old }
    ensures failings { HasNoFailings (L.failings link.old) → FailsGiving result (L.failings link.old) (L.failings link.new) }
    ensures cause { HasCause (L.faults link.old) (L.faults link.new) (IsLinkFault result) }
{
    if waiting.len() < FLUSH {
        return Ok(());
    }
    match give_all(link, waiting.as_slice()) {
        Ok(()) => {
            waiting.clear();
            Ok(())
        }
        Err(fault) => Err(fault),
    }
}

/// Gives a frame. An `Err` gave a prefix of its bytes.
pub(crate) fn give_frame<L: Link>(
    alloc: Global,
    link: &mut L,
    frame: &Frame,
) -> Result<(), GiveFault>
    ensures given { Gives result (L.given link.old) (L.given link.new) (bytes_of frame.now) }
    ensures answered { L.answered link.new ≡ L.answered link.old }
    ensures failings { HasNoFailings (L.failings link.old) → FailsGiving result (L.failings link.old) (L.failings link.new) }
    ensures cause { HasCause (L.faults link.old) (L.faults link.new) (IsLinkFault result) }
{
    let mut bytes = Vec::new(alloc);
    match write_frame(frame, &mut bytes) {
        Ok(()) => give_all(link, bytes.as_slice()),
        Err(_) => Err(GiveFault::NoMemory),
    }
}
