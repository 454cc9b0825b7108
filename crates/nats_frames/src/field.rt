//! The fields of a line.

ghost use Rattle.std.specs.Prelude.{◌≡◌, ◌+◌, ◌<◌, ◌≤◌, ◌^◌, [], ◌∷◌, length, drop, position, IfSome, IfNone};
ghost use Rattle.std.specs.List.{prefix_len};
ghost use Rattle.js_base.specs.Bytes.{is_blank};
ghost use Rattle.nats_frames.specs.Grammar.{is_solid};
ghost use Rattle.nats_frames.specs.Reading.{fields_of};
ghost use Rattle.nats_frames.specs.Fields.{span, part, IsWithin, IsNextField, AreFields};

use js_base::is_blank;

/// The bytes from `start` up to `end`.
#[derive(Clone, Copy, Debug)]
pub(crate) struct Span {
    pub(crate) start: usize,
    pub(crate) end: usize,
}

impl Span {
    /// So many bytes from a place on.
    pub(crate) fn of(start: usize, len: usize) -> Span
        requires { start + len < 2 ^ 64 }
        ensures { result ≡ span start len }
    {
        Span {
            start,
            end: start + len,
        }
    }
}

/// The bytes of a part.
pub(crate) fn part(bytes: &[u8], span: Span) -> &[u8]
    requires { IsWithin bytes.now span }
    ensures { result.now ≡ part bytes.now span }
{
    &bytes[span.start..span.end]
}

/// Whether the byte is no blank, so that it belongs to a field.
fn is_solid(byte: u8) -> bool
    ensures { result ≡ is_solid byte }
{
    !is_blank(byte)
}

fn first_blank(text: &[u8]) -> Option<usize>
    ensures { result ≡ position is_blank text.now }
{
    text.iter().position(|byte| is_blank(*byte))
}

fn first_solid(text: &[u8]) -> Option<usize>
    ensures { result ≡ position is_solid text.now }
{
    text.iter().position(|byte| is_solid(*byte))
}

/// How many bytes come before the first blank.
#[tactic(auto, using(crate::proofs::FieldLemmas::place_or_len, crate::proofs::FieldLemmas::place_within))]
pub(crate) fn solid_len(text: &[u8]) -> usize
    ensures value { result ≡ prefix_len is_solid text.now }
    ensures within { result ≤ length text.now }
{
    first_blank(text).unwrap_or(text.len())
}

/// How many blanks come first.
#[tactic(auto, using(crate::proofs::FieldLemmas::blanks_or_len, crate::proofs::FieldLemmas::place_within))]
pub(crate) fn blank_len(text: &[u8]) -> usize
    ensures value { result ≡ prefix_len is_blank text.now }
    ensures within { result ≤ length text.now }
{
    first_solid(text).unwrap_or(text.len())
}

/// The next field from a place on.
fn next_field(line: &[u8], from: usize) -> Option<Span>
    requires within { from ≤ length line.now }
    ensures some { IfSome result (IsNextField line.now from) }
    ensures none { IfNone result (fields_of (drop from line.now) ≡ []) }
{
    let (_, behind) = line.split_at(from);
    let start = from + blank_len(behind);
    let (_, text) = line.split_at(start);
    let len = solid_len(text);
    if len > 0 {
        Some(Span::of(start, len))
    } else {
        None
    }
}

/// The fields of an operation. None has more than four.
#[derive(Clone, Copy)]
pub(crate) enum Fields {
    None,
    One(Span),
    Two(Span, Span),
    Three(Span, Span, Span),
    Four(Span, Span, Span, Span),
    /// More than four.
    More,
}

/// The fields from a place on.
pub(crate) fn fields_from(line: &[u8], from: usize) -> Fields
    requires within { from ≤ length line.now }
    ensures fields { AreFields line.now from result }
{
    let Some(first) = next_field(line, from) else {
        return Fields::None;
    };
    let Some(second) = next_field(line, first.end) else {
        return Fields::One(first);
    };
    let Some(third) = next_field(line, second.end) else {
        return Fields::Two(first, second);
    };
    let Some(fourth) = next_field(line, third.end) else {
        return Fields::Three(first, second, third);
    };
    match next_field(line, fourth.end) {
        None => Fields::Four(first, second, third, fourth),
        Some(_) => Fields::More,
    }
}
