//! What bytes begin with of which more may come.

ghost use Rattle.std.specs.Prelude.{◌≡◌, ◌≢◌, ◌+◌, ◌<◌, ◌≤◌, true, ℕ, List, ◌∷◌, ◌++◌, length, take, drop, slice_index, IfSome, IfNone, Some};
ghost use Rattle.nats_frames.specs.Grammar.{counted};
ghost use Rattle.nats_frames.specs.Looking.{IsScanned, IsLineTo, Looks, Ends};
ghost use Rattle.nats_frames.specs.Reading.{split_at, without_cr};
ghost use Rattle.nats_frames.specs.Shapes.{seen};

use crate::fault::Fault;
use crate::line::{Line, words_at};
use crate::shape::Shape;
use memchr::memchr;

/// The greatest line, in bytes with its LF.
const MOST_LINE: usize = 4098;

/// The greatest payload, in bytes with its headers.
const MOST_PAYLOAD: u64 = 1_048_576;

/// What bytes begin with.
pub(crate) enum Look {
    /// An operation of so many bytes.
    Whole { shape: Shape, len: usize },
    /// Less than an operation. No LF is among the first `scanned` bytes, and until `quiet` bytes are there nothing more is known.
    Partial { scanned: usize, quiet: usize },
    /// A fault.
    Broken(Fault),
}

/// What follows the line of a publish.
enum Ending {
    /// The payload and its CR LF.
    Whole,
    /// Less than that. Until `quiet` bytes are there nothing more is known.
    Partial { quiet: usize },
    /// A payload without its CR LF: the place of the first wrong byte.
    Wrong { place: usize },
}

/// The place of the first LF, if a line may end there.
fn line_end(bytes: &[u8], scanned: usize) -> Option<usize>
    requires { IsScanned bytes.now scanned }
    ensures within { IfSome result (λ end. (end < length bytes.now) × (end < 4098)) }
    ensures first { IfSome result (λ end. split_at 10 bytes.now ≡ Some (take end bytes.now, drop (end + 1) bytes.now)) }
    ensures scanned { IfSome result (λ end. (k : ℕ) → k < end → slice_index bytes.now k ≢ 10) }
    ensures none { IfNone result ((k : ℕ) → k < 4098 → k < length bytes.now → slice_index bytes.now k ≢ 10) }
{
    let (window, _) = bytes.split_at(bytes.len().min(MOST_LINE));
    let (_, unseen) = window.split_at(scanned);
    let at = memchr(b'\n', unseen)?;
    Some(scanned + at)
}

/// Whether one byte more after so many without an LF still leaves less than a line.
pub(crate) fn is_in_line(before: usize, byte: u8) -> bool
    ensures short { result ≡ true → before + 1 < 4098 }
    ensures other { result ≡ true → byte ≢ 10 }
{
    before < MOST_LINE - 1 && byte != b'\n'
}

/// A line without the CR at its end.
fn without_cr(line: &[u8]) -> &[u8]
    ensures { result.now ≡ without_cr line.now }
{
    line.strip_suffix(b"\r").unwrap_or(line)
}

/// How many bytes after the line it counts.
fn counted(line: &Line) -> Option<u64>
    ensures { (words : List ℕ) → result ≡ counted (seen words line.now) }
{
    match line {
        Line::Pub { size, .. } | Line::HPub { size, .. } => Some(*size),
        _ => None,
    }
}

/// What follows a line that counts a payload of this size.
fn behind_payload(bytes: &[u8], size: usize) -> Ending
    requires { size ≤ 1048576 }
    ensures ends { Ends size bytes.now result }
{
    if bytes.len() <= size {
        return Ending::Partial { quiet: size + 1 };
    }
    let (_, end) = bytes.split_at(size);
    match end {
        [b'\r', b'\n', ..] => Ending::Whole,
        [b'\r'] => Ending::Partial { quiet: size + 2 },
        [b'\r', ..] => Ending::Wrong { place: size + 1 },
        _ => Ending::Wrong { place: size },
    }
}

/// What a line with its LF at the place begins.
fn behind_line(bytes: &[u8], end: usize, line: Line) -> Look
    requires { IsLineTo bytes.now end line }
    ensures { Looks bytes.now result }
{
    let len = end + 1;
    let shape = Shape { line, len };
    let Some(size) = counted(&line) else {
        return Look::Whole { shape, len };
    };
    if size > MOST_PAYLOAD {
        return Look::Broken(Fault::PayloadTooBig(size));
    }
    let size = size as usize;
    let (_, rest) = bytes.split_at(len);
    match behind_payload(rest, size) {
        Ending::Whole => Look::Whole {
            shape,
            len: len + size + 2,
        },
        Ending::Partial { quiet } => Look::Partial {
            scanned: end,
            quiet: len + quiet,
        },
        Ending::Wrong { place } => Look::Broken(Fault::BadEnd((len + place) as u64)),
    }
}

/// What the bytes begin with. No LF is among the first `scanned`.
pub(crate) fn look_at(bytes: &[u8], scanned: usize) -> Look
    requires { IsScanned bytes.now scanned }
    ensures { Looks bytes.now result }
{
    match line_end(bytes, scanned) {
        Some(end) => {
            let (text, _) = bytes.split_at(end);
            match words_at(without_cr(text)) {
                Ok(line) => behind_line(bytes, end, line),
                Err(fault) => Look::Broken(fault),
            }
        }
        None if bytes.len() < MOST_LINE => Look::Partial {
            scanned: bytes.len(),
            quiet: bytes.len() + 1,
        },
        None => Look::Broken(Fault::LineTooLong),
    }
}
