//! What is read of one field of a body.

ghost use Rattle.std.specs.Prelude.{◌≡◌, Some};
ghost use Rattle.js_base.specs.Subjects.{is_pattern_text, is_subject_text};
ghost use Rattle.js_json.specs.Members.{members};
ghost use Rattle.api_requests.specs.Answers.{Reads};
ghost use Rattle.api_requests.specs.Fields.{number_in, positive_in, unless_empty, text_in, given_text_in, only, pattern_in, subject_in, nothing_in};

use crate::fault::ApiFault;
use js_base::Blob;
use js_json::{Fields, JsonFault};
use js_model::refusals::{invalid_value, not_supported};
use std::alloc::Global;
use subject_match::{check_pattern, check_subject};

/// The end of the numbers that a body may have.
const NUMBERS_END: i128 = 1 << 62;

/// The number below 2^62 in the field, if there is one.
#[tactic(auto, unfolding(crate::specs::Fields::number_in))]
pub(crate) fn number_in(alloc: Global, fields: &Fields, name: &str) -> Result<Option<u64>, ApiFault>
    ensures reading { Reads result (number_in name.now (members fields.now)) }
{
    match fields.number(name) {
        Ok(None) => Ok(None),
        Ok(Some(number)) if 0 <= number && number < NUMBERS_END => Ok(Some(number as u64)),
        Err(JsonFault::NoMemory) => Err(ApiFault::NoMemory),
        _ => Err(ApiFault::Refused(invalid_value(alloc, name.as_bytes())?)),
    }
}

/// The same, and 0 counts as absent.
#[tactic(auto, unfolding(crate::specs::Fields::positive_in))]
pub(crate) fn positive_in(
    alloc: Global,
    fields: &Fields,
    name: &str,
) -> Result<Option<u64>, ApiFault>
    ensures reading { Reads result (positive_in name.now (members fields.now)) }
{
    match number_in(alloc, fields, name)? {
        Some(number) if number != 0 => Ok(Some(number)),
        _ => Ok(None),
    }
}

/// The text, if it is not empty.
fn unless_empty(text: Blob) -> Option<Blob>
    ensures value { result ≡ unless_empty text }
{
    if text.is_empty() { None } else { Some(text) }
}

/// The text in the field, if there is one that is not empty.
#[tactic(auto, unfolding(crate::specs::Fields::text_in))]
pub(crate) fn text_in(alloc: Global, fields: &Fields, name: &str) -> Result<Option<Blob>, ApiFault>
    ensures reading { Reads result (text_in name.now (members fields.now)) }
{
    match fields.text(name) {
        Ok(Some(text)) => Ok(unless_empty(text)),
        Ok(None) => Ok(None),
        Err(JsonFault::NoMemory) => Err(ApiFault::NoMemory),
        Err(_) => Err(ApiFault::Refused(invalid_value(alloc, name.as_bytes())?)),
    }
}

/// The text in the field, if there is one, which may be empty.
#[tactic(auto, unfolding(crate::specs::Fields::given_text_in))]
pub(crate) fn given_text_in(
    alloc: Global,
    fields: &Fields,
    name: &str,
) -> Result<Option<Blob>, ApiFault>
    ensures reading { Reads result (given_text_in name.now (members fields.now)) }
{
    match fields.text(name) {
        Ok(text) => Ok(text),
        Err(JsonFault::NoMemory) => Err(ApiFault::NoMemory),
        Err(_) => Err(ApiFault::Refused(invalid_value(alloc, name.as_bytes())?)),
    }
}

/// The text, if it is a pattern.
fn only_pattern(alloc: Global, name: &str, text: Blob) -> Result<Option<Blob>, ApiFault>
    ensures reading { Reads result (only is_pattern_text name.now (Some text)) }
{
    match check_pattern(text.as_slice()) {
        Ok(()) => Ok(Some(text)),
        Err(_) => Err(ApiFault::Refused(invalid_value(alloc, name.as_bytes())?)),
    }
}

/// The pattern in the field, if the text is not empty.
#[tactic(auto, unfolding(crate::specs::Fields::pattern_in))]
pub(crate) fn pattern_in(
    alloc: Global,
    fields: &Fields,
    name: &str,
) -> Result<Option<Blob>, ApiFault>
    ensures reading { Reads result (pattern_in name.now (members fields.now)) }
{
    match text_in(alloc, fields, name)? {
        Some(text) => only_pattern(alloc, name, text),
        None => Ok(None),
    }
}

/// The text, if it is a subject without wildcards.
fn only_subject(alloc: Global, name: &str, text: Blob) -> Result<Option<Blob>, ApiFault>
    ensures reading { Reads result (only is_subject_text name.now (Some text)) }
{
    match check_subject(text.as_slice()) {
        Ok(()) => Ok(Some(text)),
        Err(_) => Err(ApiFault::Refused(invalid_value(alloc, name.as_bytes())?)),
    }
}

/// The subject without wildcards in the field, if the text is not empty.
#[tactic(auto, unfolding(crate::specs::Fields::subject_in))]
pub(crate) fn subject_in(
    alloc: Global,
    fields: &Fields,
    name: &str,
) -> Result<Option<Blob>, ApiFault>
    ensures reading { Reads result (subject_in name.now (members fields.now)) }
{
    match text_in(alloc, fields, name)? {
        Some(text) => only_subject(alloc, name, text),
        None => Ok(None),
    }
}

/// Refuses a field that the server leaves out, if it says something.
pub(crate) fn nothing_in(alloc: Global, fields: &Fields, name: &str) -> Result<(), ApiFault>
    ensures reading { Reads result (nothing_in name.now (members fields.now)) }
{
    if fields.given(name) {
        Err(ApiFault::Refused(not_supported(alloc, name.as_bytes())?))
    } else {
        Ok(())
    }
}
