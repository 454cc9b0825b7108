//! JSON values, taken as the types that they are asked for.

ghost use Rattle.std.specs.Prelude.{◌≡◌, IfOk, IfSome, IsUtf8};
ghost use Rattle.std.specs.List.{All};
ghost use Rattle.serde_json.specs.View.{view};
ghost use Rattle.js_json.specs.Kinds.{as_whole, as_wholes, as_texts, as_time, is_something, FitsWord};

use crate::time::read_time;
use js_base::{Blob, List, Moment, NoMemory};
use serde_json::Value;
use std::alloc::Global;

/// An integer that fits 64 bits, with a sign or without.
pub(crate) fn whole(value: &Value) -> Option<i128>
    ensures value { result ≡ as_whole (view value.now) }
    ensures range { IfSome result FitsWord }
{
    match value.as_u64() {
        Some(n) => Some(i128::from(n)),
        None => value.as_i64().map(i128::from),
    }
}

/// A list of such integers. It takes memory for them.
pub(crate) fn all_wholes(alloc: Global, value: &Value) -> Result<Option<List<i128>>, NoMemory>
    ensures value { IfOk result (λ found. found ≡ as_wholes (view value.now)) }
    ensures range { IfOk result (λ found. IfSome found (All FitsWord)) }
{
    let Some(items) = value.as_array() else {
        return Ok(None);
    };
    let mut numbers = List::new(alloc);
    for item in items {
        match whole(item) {
            Some(number) => numbers.push(number)?,
            None => return Ok(None),
        }
    }
    Ok(Some(numbers))
}

/// A list of texts. It takes memory for them.
pub(crate) fn all_texts(alloc: Global, value: &Value) -> Result<Option<List<Blob>>, NoMemory>
    ensures value { IfOk result (λ found. found ≡ as_texts (view value.now)) }
    ensures utf8 { IfOk result (λ found. IfSome found (All IsUtf8)) }
{
    let Some(items) = value.as_array() else {
        return Ok(None);
    };
    let mut texts = List::new(alloc);
    for item in items {
        match item.as_str() {
            Some(text) => texts.push(Blob::of(alloc, text.as_bytes())?)?,
            None => return Ok(None),
        }
    }
    Ok(Some(texts))
}

/// A moment, in a text.
pub(crate) fn time(value: &Value) -> Option<Moment>
    ensures value { result ≡ as_time (view value.now) }
{
    match value.as_str() {
        Some(text) => read_time(text.as_bytes()),
        None => None,
    }
}

/// Whether the value is not null, no empty text and no empty list.
pub(crate) fn is_something(value: &Value) -> bool
    ensures value { result ≡ is_something (view value.now) }
{
    if let Some(text) = value.as_str() {
        return !text.is_empty();
    }
    if let Some(items) = value.as_array() {
        return !items.is_empty();
    }
    !value.is_null()
}
