//! The status blocks that refuse a pull.

ghost use Rattle.std.specs.Prelude.{◌≡◌, IfOk};
ghost use Rattle.js_model.specs.Pulls.{push_based, bad_request, exceeded_waiting};

use js_base::{Blob, NoMemory};
use nats_headers::write_status;
use std::alloc::Global;

/// The consumer is a push consumer.
pub fn push_based(alloc: Global) -> Result<Blob, NoMemory>
    ensures value { IfOk result (λ block. block ≡ push_based) }
{
    write_status(alloc, 409, b"Consumer is push based", &[])
}

/// The body of the pull has no form.
pub fn bad_request(alloc: Global) -> Result<Blob, NoMemory>
    ensures value { IfOk result (λ block. block ≡ bad_request) }
{
    write_status(alloc, 400, b"Bad Request", &[])
}

/// As many pulls wait already as `max_waiting` allows.
pub fn exceeded_waiting(alloc: Global) -> Result<Blob, NoMemory>
    ensures value { IfOk result (λ block. block ≡ exceeded_waiting) }
{
    write_status(alloc, 409, b"Exceeded MaxWaiting", &[])
}
