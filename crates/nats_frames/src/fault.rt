//! What is wrong at the start of bytes.

ghost use Rattle.std.specs.Prelude.{◌≡◌, ◌+◌, ◌<◌, ◌^◌};
ghost use Rattle.nats_frames.specs.Faults.{told, reach};

use crate::op::FrameFault;

/// Why bytes begin with no operation, however they go on.
#[derive(Clone, Copy)]
pub(crate) enum Fault {
    UnknownOp,
    LineTooLong,
    BadArgs,
    PayloadTooBig(u64),
    /// The place is counted from the first of the bytes.
    BadEnd(u64),
}

/// The fault of an input of which so many bytes came before these.
pub(crate) fn told(fault: Fault, before: u64) -> FrameFault
    requires { before + reach fault < 2 ^ 64 }
    ensures { result ≡ told before fault }
{
    match fault {
        Fault::UnknownOp => FrameFault::UnknownOp,
        Fault::LineTooLong => FrameFault::LineTooLong,
        Fault::BadArgs => FrameFault::BadArgs,
        Fault::PayloadTooBig(size) => FrameFault::PayloadTooBig(size),
        Fault::BadEnd(place) => FrameFault::BadEnd(before + place),
    }
}
