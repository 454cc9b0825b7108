//! Which texts are subjects, and which are patterns.

ghost use Rattle.std.specs.Prelude.{◌≡◌, ◌+◌, ◌<◌, ◌^◌, is_ok, length};
ghost use Rattle.std.specs.Option.{option_map};
ghost use Rattle.std.specs.Result.{result_err};
ghost use Rattle.js_base.specs.Subjects.{is_subject_text, is_pattern_text, is_publish_text, is_token_byte, tokens};
ghost use Rattle.subject_match.specs.Faults.{fault_of, token_fault, barred, bad_byte, broken, earlier, place, subject_fault, pattern_fault};

use crate::fault::SubjectFault;
use crate::server_subject::is_api;
use crate::token::{is_rest, is_star, split_token};
use std::str;

/// The greatest length of a subject or a pattern, in bytes.
const MAX_LEN: usize = 1024;

/// What a text should be.
#[derive(Clone, Copy)]
enum Kind {
    Subject,
    Pattern,
}

/// Whether the text is a subject without wildcards: 1 to 1,024 bytes of UTF-8 without control bytes, blanks and DEL, in tokens of which none
/// is empty, `*` or `>`. The fault is `TooLong`, or else the one at the first place.
pub fn check_subject(bytes: &[u8]) -> Result<(), SubjectFault>
    ensures ok { is_ok result ≡ is_subject_text bytes.now }
    ensures fault { result_err result ≡ subject_fault bytes.now }
{
    match fault_of(Kind::Subject, bytes) {
        None => Ok(()),
        Some(fault) => Err(fault),
    }
}

/// Whether the text is a pattern: as a subject, but a token may be `*`, and the last one `>`. The fault is `TooLong`, or else the one at the
/// first place.
pub fn check_pattern(bytes: &[u8]) -> Result<(), SubjectFault>
    ensures ok { is_ok result ≡ is_pattern_text bytes.now }
    ensures fault { result_err result ≡ pattern_fault bytes.now }
{
    match fault_of(Kind::Pattern, bytes) {
        None => Ok(()),
        Some(fault) => Err(fault),
    }
}

/// Whether a client may publish to the text: a subject without wildcards, or below `$JS.API.` any pattern, since a request's subject holds a
/// consumer's filter.
pub fn is_publish_subject(bytes: &[u8]) -> bool
    ensures value { result ≡ is_publish_text bytes.now }
{
    check_subject(bytes).is_ok() || (is_api(bytes) && check_pattern(bytes).is_ok())
}

/// What is wrong with the text, if anything is.
fn fault_of(kind: Kind, text: &[u8]) -> Option<SubjectFault>
    ensures value { result ≡ fault_of kind text.now }
{
    if text.len() > MAX_LEN {
        return Some(SubjectFault::TooLong);
    }
    let in_tokens = token_fault(kind, text);
    let in_bytes = earlier(
        bad_byte(text).map(SubjectFault::BadByte),
        broken(text).map(SubjectFault::BadByte),
    );
    earlier(in_tokens, in_bytes)
}

/// The first token that is empty, or a wildcard that may not stand there.
fn token_fault(kind: Kind, text: &[u8]) -> Option<SubjectFault>
    requires { length text.now < 2 ^ 62 }
    ensures value { result ≡ token_fault kind 0 (tokens text.now) }
{
    let mut at = 0;
    let mut left = Some(text);
    while let Some(text) = left {
        let (token, more) = split_token(text);
        if token.is_empty() {
            return Some(SubjectFault::EmptyToken(at));
        }
        if is_barred(kind, token, more.is_none()) {
            return Some(SubjectFault::Wildcard(at));
        }
        at += token.len() + 1;
        left = more;
    }
    None
}

/// Whether the token is a wildcard that may not stand there.
fn is_barred(kind: Kind, token: &[u8], is_last: bool) -> bool
    ensures value { result ≡ barred kind token.now is_last }
{
    match kind {
        Kind::Subject => is_star(token) || is_rest(token),
        Kind::Pattern => is_rest(token) && !is_last,
    }
}

/// The first byte that may stand in no token.
fn bad_byte(text: &[u8]) -> Option<usize>
    ensures value { result ≡ bad_byte text.now }
{
    text.iter().position(|byte| !is_token_byte(*byte))
}

/// Whether the byte, by itself, may stand in a token.
fn is_token_byte(byte: u8) -> bool
    ensures value { result ≡ is_token_byte byte }
{
    byte > b' ' && byte != 0x7F
}

/// The first byte that breaks UTF-8.
fn broken(text: &[u8]) -> Option<usize>
    ensures value { result ≡ broken text.now }
{
    match str::from_utf8(text) {
        Ok(_) => None,
        Err(error) => Some(error.valid_up_to()),
    }
}

/// The fault that comes first.
fn earlier(one: Option<SubjectFault>, other: Option<SubjectFault>) -> Option<SubjectFault>
    ensures value { result ≡ earlier one other }
{
    match (one, other) {
        (Some(first), Some(second)) if place(second) < place(first) => other,
        _ => one.or(other),
    }
}

/// Where the fault is.
fn place(fault: SubjectFault) -> usize
    ensures value { result ≡ place fault }
{
    match fault {
        SubjectFault::EmptyToken(at) | SubjectFault::BadByte(at) | SubjectFault::Wildcard(at) => at,
        SubjectFault::TooLong => 0,
    }
}
