//! The refusals of what a configuration lacks.

ghost use Rattle.std.specs.Prelude.{◌≡◌, IfOk};
ghost use Rattle.consumer_config.specs.Refusals as refusals;

use js_base::{ApiError, Blob, NoMemory};
use std::alloc::Global;

/// The deliver policy needs this field.
pub(crate) fn start_missing(alloc: Global, field: &[u8]) -> Result<ApiError, NoMemory>
    ensures value { IfOk result (λ error. error ≡ refusals.start_missing field.now) }
{
    let mut text = Vec::from_slice(alloc, b"start field missing: ")?;
    text.extend_from_slice(field)?;
    Ok(ApiError {
        code: 400,
        err_code: 20003,
        text: Blob::of(alloc, text.as_slice())?,
    })
}

/// The consumer has no durable name.
pub(crate) fn durable_name_required(alloc: Global) -> Result<ApiError, NoMemory>
    ensures value { IfOk result (λ error. error ≡ refusals.durable_name_required) }
{
    Ok(ApiError {
        code: 400,
        err_code: 20005,
        text: Blob::of(alloc, b"durable name required")?,
    })
}
