//! The lines that begin operations.

ghost use Rattle.std.specs.Prelude.{◌≡◌, ◌≤◌, ◌<◌, ◌^◌, length, drop, IfSome, option_map};
ghost use Rattle.js_base.specs.Decimal.{number_of};
ghost use Rattle.nats_frames.specs.Fields.{part, IsWithin};
ghost use Rattle.nats_frames.specs.Reading.{behind_blanks, connect_of, sized, pub_of, both_sized, hpub_of, is_sid, is_queue, sub_of, limited, unsub_of, bare_of, fields_of, args_at, words_at};
ghost use Rattle.nats_frames.specs.Shapes.{seen, Sees, Stands};

use crate::fault::Fault;
use crate::field::{Fields, Span, blank_len, fields_from, part, solid_len};
use crate::verb::{Verb, verb_of};
use js_base::{DecFault, read_decimal};

/// The longest name of a subscription, and of a queue group, in bytes.
const MOST_SID: usize = 256;

const MOST_QUEUE: usize = 1024;

/// What the line of an operation says: its numbers, and the places of its other fields.
#[derive(Clone, Copy, Debug)]
pub(crate) enum Line {
    Connect {
        text: Span,
    },
    Pub {
        subject: Span,
        reply: Option<Span>,
        size: u64,
    },
    HPub {
        subject: Span,
        reply: Option<Span>,
        header: u64,
        size: u64,
    },
    Sub {
        subject: Span,
        queue: Option<Span>,
        sid: Span,
    },
    Unsub {
        sid: Span,
        max: Option<u64>,
    },
    Ping,
    Pong,
}

/// The text after the blanks.
fn connect_at(words: &[u8], from: usize) -> Result<Line, Fault>
    requires within { from ≤ length words.now }
    ensures sees { Sees words.now result (connect_of (behind_blanks (drop from words.now))) }
{
    let (_, args) = words.split_at(from);
    let start = from + blank_len(args);
    if start == words.len() {
        return Err(Fault::BadArgs);
    }
    Ok(Line::Connect {
        text: Span {
            start,
            end: words.len(),
        },
    })
}

/// The number that a field spells.
fn number(words: &[u8], digits: Span) -> Result<u64, DecFault>
    requires within { IsWithin words.now digits }
    ensures value { result ≡ number_of (part words.now digits) }
{
    read_decimal(part(words, digits))
}

/// A publish whose payload has the size that the digits spell.
fn sized(words: &[u8], subject: Span, reply: Option<Span>, digits: Span) -> Result<Line, Fault>
    requires within { IsWithin words.now subject × IfSome reply (IsWithin words.now) × IsWithin words.now digits }
    ensures sees { Sees words.now result (sized (part words.now subject) (option_map (part words.now) reply) (part words.now digits)) }
{
    match number(words, digits) {
        Ok(size) => Ok(Line::Pub {
            subject,
            reply,
            size,
        }),
        Err(_) => Err(Fault::BadArgs),
    }
}

fn pub_at(words: &[u8], from: usize) -> Result<Line, Fault>
    requires within { from ≤ length words.now }
    ensures sees { Sees words.now result (pub_of (fields_of (drop from words.now))) }
{
    match fields_from(words, from) {
        Fields::Two(subject, digits) => sized(words, subject, None, digits),
        Fields::Three(subject, reply, digits) => sized(words, subject, Some(reply), digits),
        _ => Err(Fault::BadArgs),
    }
}

/// A publish whose headers, and headers and payload, have the sizes that the digits spell.
fn both_sized(
    words: &[u8],
    subject: Span,
    reply: Option<Span>,
    header_digits: Span,
    digits: Span,
) -> Result<Line, Fault>
    requires within { IsWithin words.now subject × IfSome reply (IsWithin words.now) }
    requires digits_within { IsWithin words.now header_digits × IsWithin words.now digits }
    ensures sees { Sees words.now result
        (both_sized (part words.now subject) (option_map (part words.now) reply) (part words.now header_digits) (part words.now digits)) }
{
    let Ok(header) = number(words, header_digits) else {
        return Err(Fault::BadArgs);
    };
    match number(words, digits) {
        Ok(size) if header <= size => Ok(Line::HPub {
            subject,
            reply,
            header,
            size,
        }),
        _ => Err(Fault::BadArgs),
    }
}

fn hpub_at(words: &[u8], from: usize) -> Result<Line, Fault>
    requires within { from ≤ length words.now }
    ensures sees { Sees words.now result (hpub_of (fields_of (drop from words.now))) }
{
    match fields_from(words, from) {
        Fields::Three(subject, header_digits, digits) => {
            both_sized(words, subject, None, header_digits, digits)
        }
        Fields::Four(subject, reply, header_digits, digits) => {
            both_sized(words, subject, Some(reply), header_digits, digits)
        }
        _ => Err(Fault::BadArgs),
    }
}

/// Whether a field may name a subscription.
fn is_sid(words: &[u8], sid: Span) -> bool
    requires { IsWithin words.now sid }
    ensures { result ≡ is_sid (part words.now sid) }
{
    part(words, sid).len() <= MOST_SID
}

/// Whether a field may name a queue group.
fn is_queue(words: &[u8], queue: Span) -> bool
    requires { IsWithin words.now queue }
    ensures { result ≡ is_queue (part words.now queue) }
{
    part(words, queue).len() <= MOST_QUEUE
}

fn sub_at(words: &[u8], from: usize) -> Result<Line, Fault>
    requires within { from ≤ length words.now }
    ensures sees { Sees words.now result (sub_of (fields_of (drop from words.now))) }
{
    match fields_from(words, from) {
        Fields::Two(subject, sid) if is_sid(words, sid) => Ok(Line::Sub {
            subject,
            queue: None,
            sid,
        }),
        Fields::Three(subject, queue, sid) if is_queue(words, queue) && is_sid(words, sid) => Ok(
            Line::Sub {
                subject,
                queue: Some(queue),
                sid,
            },
        ),
        _ => Err(Fault::BadArgs),
    }
}

/// The end of a subscription after as many messages as the digits spell.
fn limited(words: &[u8], sid: Span, digits: Span) -> Result<Line, Fault>
    requires within { IsWithin words.now sid × IsWithin words.now digits }
    ensures sees { Sees words.now result (limited (part words.now sid) (part words.now digits)) }
{
    match number(words, digits) {
        Ok(max) => Ok(Line::Unsub {
            sid,
            max: Some(max),
        }),
        Err(_) => Err(Fault::BadArgs),
    }
}

fn unsub_at(words: &[u8], from: usize) -> Result<Line, Fault>
    requires within { from ≤ length words.now }
    ensures sees { Sees words.now result (unsub_of (fields_of (drop from words.now))) }
{
    match fields_from(words, from) {
        Fields::One(sid) if is_sid(words, sid) => Ok(Line::Unsub { sid, max: None }),
        Fields::Two(sid, digits) if is_sid(words, sid) => limited(words, sid, digits),
        _ => Err(Fault::BadArgs),
    }
}

/// A line without fields.
fn bare_at(words: &[u8], from: usize, line: Line) -> Result<Line, Fault>
    requires within { from ≤ length words.now }
    requires stands { Stands words.now line }
    ensures sees { Sees words.now result (bare_of (seen words.now line) (fields_of (drop from words.now))) }
{
    match fields_from(words, from) {
        Fields::None => Ok(line),
        _ => Err(Fault::BadArgs),
    }
}

/// What a line of this name says, from the end of the name on.
#[tactic(auto, unfolding(crate::specs::Reading::args_at))]
fn args_at(verb: Option<Verb>, words: &[u8], from: usize) -> Result<Line, Fault>
    requires within { from ≤ length words.now }
    ensures sees { Sees words.now result (args_at verb (drop from words.now)) }
{
    match verb {
        Some(Verb::Connect) => connect_at(words, from),
        Some(Verb::Pub) => pub_at(words, from),
        Some(Verb::HPub) => hpub_at(words, from),
        Some(Verb::Sub) => sub_at(words, from),
        Some(Verb::Unsub) => unsub_at(words, from),
        Some(Verb::Ping) => bare_at(words, from, Line::Ping),
        Some(Verb::Pong) => bare_at(words, from, Line::Pong),
        None => Err(Fault::UnknownOp),
    }
}

/// What the text of a line says.
#[tactic(auto, unfolding(crate::specs::Reading::words_at))]
pub(crate) fn words_at(words: &[u8]) -> Result<Line, Fault>
    ensures sees { Sees words.now result (words_at words.now) }
{
    let len = solid_len(words);
    let (name, _) = words.split_at(len);
    args_at(verb_of(name), words, len)
}
