//! What a pull is told that ends.

ghost use Rattle.std.specs.Prelude.{◌≡◌, IfOk};
ghost use Rattle.js_model.specs.Advance.{status_out};
ghost use Rattle.js_model.specs.Deliver.{small_block, empty_block};
ghost use Rattle.consumer_texts.specs.Parting.{farewell_of};

use crate::status::{left_fields, status_out};
use js_base::{NoMemory, Out};
use js_model::Pull;
use nats_headers::write_status;
use std::alloc::Global;

/// Tells a pull that it is too small for a message, and what it is still owed.
pub fn too_small(alloc: Global, pull: &Pull) -> Result<Out, NoMemory>
    ensures value { IfOk result (λ out. out ≡ status_out pull.now.reply (small_block pull.now)) }
{
    let left = left_fields(alloc, pull)?;
    let block = write_status(alloc, 409, b"Message Size Exceeds MaxBytes", &left)?;
    status_out(&pull.reply, block)
}

/// Tells a pull that does not wait that there is nothing to deliver.
pub fn emptied(alloc: Global, pull: &Pull) -> Result<Out, NoMemory>
    ensures value { IfOk result (λ out. out ≡ status_out pull.now.reply empty_block) }
{
    let block = write_status(alloc, 404, b"No Messages", &[])?;
    status_out(&pull.reply, block)
}

/// Tells a pull that its consumer is gone.
pub fn farewell(alloc: Global, pull: &Pull) -> Result<Out, NoMemory>
    ensures value { IfOk result (λ out. out ≡ farewell_of pull.now) }
{
    let block = write_status(alloc, 409, b"Consumer Deleted", &[])?;
    status_out(&pull.reply, block)
}
