//! How a session parts from its client: the error line of its end, by the NATS client protocol's `-ERR`.

ghost use Rattle.std.specs.Prelude.{◌≡◌, ◌++◌, true, is_some, option_map, OnOk, OnErr};
ghost use Rattle.js_base.specs.Causes.{HasCause};
ghost use Rattle.link_edge.specs.Failings.{HasNoFailings};
ghost use Rattle.session.specs.Talk.{fault_text, refusal_text, last_text, last_line, is_parting};
ghost use Rattle.session.specs.Failing.{FailsBy};
ghost use Rattle.session.specs.Parting.{Parts, PartsAt};

use crate::ending::{Ended, Refusal};
use crate::error_line::write_error;
use crate::giving::give_all;
use crate::stop::Stop;
use js_base::NoMemory;
use link_edge::Link;
use nats_frames::FrameFault;
use std::alloc::Global;

const UNKNOWN_OPERATION: &[u8] = b"Unknown Protocol Operation";

const LINE_TOO_LONG: &[u8] = b"Maximum Control Line Exceeded";

const PARSER_ERROR: &[u8] = b"Parser Error";

const PAYLOAD_TOO_BIG: &[u8] = b"Maximum Payload Violation";

const STALE_CONNECTION: &[u8] = b"Stale Connection";

/// The text for a fault of the input.
fn fault_text(fault: FrameFault) -> Option<&'static [u8]>
    ensures text { option_map (λ text. text.now) result ≡ fault_text fault }
{
    match fault {
        FrameFault::UnknownOp => Some(UNKNOWN_OPERATION),
        FrameFault::LineTooLong => Some(LINE_TOO_LONG),
        FrameFault::BadArgs | FrameFault::BadEnd(_) => Some(PARSER_ERROR),
        FrameFault::PayloadTooBig(_) => Some(PAYLOAD_TOO_BIG),
        FrameFault::NoMemory => None,
    }
}

/// The text for a refusal.
fn refusal_text(refusal: Refusal) -> Option<&'static [u8]>
    ensures text { option_map (λ text. text.now) result ≡ refusal_text refusal }
{
    match refusal {
        Refusal::Frame(fault) => fault_text(fault),
        Refusal::BadConnect | Refusal::BadHeaders => Some(PARSER_ERROR),
        Refusal::NumbersUsed => None,
    }
}

/// The text of the error line with which a session ends so, if it has one.
fn last_text(cause: Ended) -> Option<&'static [u8]>
    ensures text { option_map (λ text. text.now) result ≡ last_text cause }
{
    match cause {
        Ended::Refused(refusal) => refusal_text(refusal),
        Ended::Stale => Some(STALE_CONNECTION),
        Ended::Closed | Ended::Slow(_) | Ended::LinkFault | Ended::InputLimit | Ended::NoMemory =>
            None,
    }
}

/// Adds the error line of an end, if it has one.
fn write_last_line(alloc: Global, cause: Ended, into: &mut Vec<u8>) -> Result<(), NoMemory>
    ensures ok { OnOk result (into.new.items ≡ into.old.items ++ last_line cause) }
    ensures err { OnErr result (is_some (last_text cause) ≡ true) }
{
    match last_text(cause) {
        Some(text) => write_error(alloc, text, into),
        None => Ok(()),
    }
}

/// Parts for a cause: gives what waits, and then the cause's error line, if it has one. If that fails, this is the end.
pub(crate) fn part<L: Link>(
    alloc: Global,
    link: &mut L,
    cause: Ended,
    waiting: &mut Vec<u8>,
) -> Ended
    requires parting { is_parting cause ≡ true }
    ensures parts { Parts cause result (L.given link.old) (L.given link.new) waiting.old.items }
    ensures answered { L.answered link.new ≡ L.answered link.old }
    ensures failings { HasNoFailings (L.failings link.old) → FailsBy result (L.failings link.old) (L.failings link.new) }
    ensures cause { HasCause (L.faults link.old) (L.faults link.new) (result ≡ Ended.LinkFault) }
{
    match write_last_line(alloc, cause, waiting) {
        Ok(()) => {}
        Err(_) => return Ended::NoMemory,
    }
    match give_all(link, waiting.as_slice()) {
        Ok(()) => cause,
        Err(fault) => Ended::from(fault),
    }
}

/// Parts because an operation ended the session. If memory ran out, nothing more is given.
pub(crate) fn part_at<L: Link>(
    alloc: Global,
    link: &mut L,
    stop: Stop,
    waiting: &mut Vec<u8>,
) -> Ended
    ensures parts { PartsAt stop result (L.given link.old) (L.given link.new) waiting.old.items }
    ensures answered { L.answered link.new ≡ L.answered link.old }
    ensures failings { HasNoFailings (L.failings link.old) → FailsBy result (L.failings link.old) (L.failings link.new) }
    ensures cause { HasCause (L.faults link.old) (L.faults link.new) (result ≡ Ended.LinkFault) }
{
    match stop {
        Stop::Refused(refusal) => part(alloc, link, Ended::Refused(refusal), waiting),
        Stop::Slow(size) => part(alloc, link, Ended::Slow(size), waiting),
        Stop::NoMemory => Ended::NoMemory,
    }
}
