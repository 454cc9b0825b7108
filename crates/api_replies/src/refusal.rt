//! A refusal as it is shown.

ghost use Rattle.std.specs.Prelude.{◌≡◌, IfOk, IsUtf8};
ghost use Rattle.serde_json.specs.Data.{object};
ghost use Rattle.js_json.specs.Building.{shown, object_with};
ghost use Rattle.api_replies.specs.Refusals.{error_of, refused_members};

use js_base::{ApiError, NoMemory};
use js_json::ObjectBuilder;
use std::alloc::Global;

/// Its code, number and text.
pub(crate) fn error_object(alloc: Global, refusal: &ApiError) -> Result<ObjectBuilder, NoMemory>
    requires utf8 { IsUtf8 refusal.now.text }
    ensures members { IfOk result (λ made. object (shown made) ≡ object_with (error_of refusal.now)) }
{
    let mut made = ObjectBuilder::new(alloc);
    made.number("code", u64::from(refusal.code))?;
    made.text("description", refusal.text.as_slice())?;
    made.number("err_code", u64::from(refusal.err_code))?;
    Ok(made)
}

/// The refusal of a call.
#[tactic(auto, unfolding(crate::specs::Refusals::refused_members))]
pub(crate) fn refused_object(alloc: Global, refusal: &ApiError) -> Result<ObjectBuilder, NoMemory>
    requires utf8 { IsUtf8 refusal.now.text }
    ensures members { IfOk result (λ made. shown made ≡ refused_members refusal.now) }
{
    let error = error_object(alloc, refusal)?;
    let mut made = ObjectBuilder::new(alloc);
    made.part("error", error)?;
    Ok(made)
}
