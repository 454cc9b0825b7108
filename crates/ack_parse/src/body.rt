//! The bodies of acknowledgements.

ghost use Rattle.std.specs.Prelude.{◌≡◌, option_map, IfOk, IfSome, IsTrue};
ghost use Rattle.js_model.specs.Configs.{is_number};
ghost use Rattle.js_model.specs.Proper.{is_proper_kind};
ghost use Rattle.ack_parse.specs.Bodies.{behind, plain_kind, delay_of, nak_kind, next_kind, kind_of};

use crate::ask::{just_one, natural_in, object_in, read_ask};
use js_base::NoMemory;
use js_model::AckKind;
use std::alloc::Global;

/// What stands behind these words.
fn behind<'a>(words: &[u8], body: &'a [u8]) -> Option<&'a [u8]>
    ensures value { option_map (λ rest. rest.now) result ≡ behind words.now body.now }
{
    if body.starts_with(words) {
        Some(&body[words.len()..])
    } else {
        None
    }
}

/// What a body says without a number: done, in progress, or never again, for which a reason may stand there.
fn plain_kind(body: &[u8]) -> Option<AckKind>
    ensures value { result ≡ plain_kind body.now }
    ensures proper { IfSome result (λ kind. IsTrue (is_proper_kind kind)) }
{
    if body.is_empty() || body == b"+ACK".as_slice() {
        Some(AckKind::Ack)
    } else if body == b"+WPI".as_slice() {
        Some(AckKind::Wpi)
    } else if body == b"+TERM".as_slice() || body.starts_with(b"+TERM ") {
        Some(AckKind::Term)
    } else {
        None
    }
}

/// The nanoseconds that an object says, 0 if it does not.
#[tactic(auto, unfolding(crate::specs::Bodies::delay_of))]
fn delay_of(alloc: Global, text: &[u8]) -> Result<Option<u64>, NoMemory>
    ensures value { IfOk result (λ delay. delay ≡ delay_of text.now) }
    ensures small { IfOk result (λ delay. IfSome delay (λ n. IsTrue (is_number n))) }
{
    match object_in(alloc, text)? {
        Some(fields) => Ok(natural_in(&fields, "delay")),
        None => Ok(None),
    }
}

/// What a body says that asks for the message once more.
fn nak_kind(alloc: Global, body: &[u8]) -> Result<Option<AckKind>, NoMemory>
    ensures value { IfOk result (λ kind. kind ≡ nak_kind body.now) }
    ensures proper { IfOk result (λ kind. IfSome kind (λ kind. IsTrue (is_proper_kind kind))) }
{
    if body == b"-NAK".as_slice() {
        return Ok(Some(AckKind::Nak(0)));
    }
    match behind(b"-NAK ", body) {
        Some(text) => Ok(delay_of(alloc, text)?.map(AckKind::Nak)),
        None => Ok(None),
    }
}

/// What a body says that asks for further messages.
fn next_kind(alloc: Global, body: &[u8]) -> Result<Option<AckKind>, NoMemory>
    ensures value { IfOk result (λ kind. kind ≡ next_kind body.now) }
    ensures proper { IfOk result (λ kind. IfSome kind (λ kind. IsTrue (is_proper_kind kind))) }
{
    if body == b"+NXT".as_slice() {
        return Ok(Some(AckKind::Next(just_one())));
    }
    match behind(b"+NXT ", body) {
        Some(text) => Ok(read_ask(alloc, text)?.map(AckKind::Next)),
        None => Ok(None),
    }
}

/// What the body of an acknowledgement says. `None` if it is of no form.
#[tactic(auto, unfolding(crate::specs::Bodies::kind_of))]
pub(crate) fn kind_of(alloc: Global, body: &[u8]) -> Result<Option<AckKind>, NoMemory>
    ensures value { IfOk result (λ kind. kind ≡ kind_of body.now) }
    ensures proper { IfOk result (λ kind. IfSome kind (λ kind. IsTrue (is_proper_kind kind))) }
{
    if let Some(kind) = plain_kind(body) {
        return Ok(Some(kind));
    }
    match nak_kind(alloc, body)? {
        Some(kind) => Ok(Some(kind)),
        None => next_kind(alloc, body),
    }
}
