//! Status messages.

ghost use Rattle.std.specs.Prelude.{◌≡◌, IfOk};
ghost use Rattle.js_model.specs.Advance.{status_out, left_fields};

use js_base::{Blob, NoMemory, Out};
use js_model::Pull;
use std::alloc::Global;

/// A message without a payload that shows a status block.
pub fn status_out(to: &Blob, block: Blob) -> Result<Out, NoMemory>
    ensures value { IfOk result (λ out. out ≡ status_out to.now block) }
{
    Ok(Out {
        to: to.clone()?,
        subject: to.clone()?,
        reply: None,
        headers: block,
        payload: Blob::empty(),
    })
}

/// What a pull is still owed, as the fields of a status block.
pub(crate) fn left_fields(alloc: Global, pull: &Pull) -> Result<[(Blob, u64); 2], NoMemory>
    ensures value { IfOk result (λ fields. fields ≡ left_fields pull.now) }
{
    let messages = Blob::of(alloc, b"Nats-Pending-Messages")?;
    let bytes = Blob::of(alloc, b"Nats-Pending-Bytes")?;
    Ok([(messages, pull.batch), (bytes, pull.bytes.unwrap_or(0))])
}
