//! Lines for the sink. What cannot be printed is left off.

ghost use Rattle.std.specs.Prelude.{◌≡◌, map};
ghost use Rattle.js_base.specs.Causes.{HasCause};
ghost use Rattle.link_edge.specs.Puts.{Writes};
ghost use Rattle.server.specs.Lines.{part_bytes, line_of, shown, shown_byte, dots_of, place_zeros, file_zeros, number_line, disk_fault_line, damaged_line, version_line, no_room_line, conflict_line};
ghost use Rattle.server.specs.Outside.{Prints};
ghost use Rattle.server.specs.WrongWords.{wrong_in, wrong_line};

use crate::mistakes::{USAGE, WrongWord};
use itoa::Buffer;
use link_edge::{Put, Sink};

/// A part of a line.
#[derive(Clone, Copy)]
enum Part<'a> {
    Text(&'a [u8]),
    /// It is printed in decimal.
    Number(u64),
    /// A word from outside, of which what is shown is printed.
    Word(&'a [u8]),
}

/// How many bytes of a word are shown.
const MOST_SHOWN: usize = 64;

/// The byte, or a question mark for a control byte.
fn shown_byte(byte: u8) -> u8
    ensures value { result ≡ shown_byte byte }
{
    match byte {
        0..=31 | 127 => b'?',
        _ => byte,
    }
}

/// Puts what is shown of a word.
fn put_word<O: Sink>(out: &mut O, word: &[u8]) -> Put
    ensures written { Writes (O.written out.old) (O.written out.new) result (shown word.now) }
    ensures cause { HasCause (O.faults out.old) (O.faults out.new) (result ≡ Put.Failed) }
{
    let mut shown = [0; MOST_SHOWN];
    let len = word.len().min(MOST_SHOWN);
    for at in 0..len {
        shown[at] = shown_byte(word[at]);
    }
    out.put(&shown[..len])
}

/// What stands behind the bytes that are shown of the word.
fn dots_of(word: &[u8]) -> &'static [u8]
    ensures value { result.now ≡ dots_of word.now }
{
    if word.len() <= MOST_SHOWN {
        b""
    } else {
        b"..."
    }
}

fn put_part<O: Sink>(out: &mut O, part: &Part<'_>) -> Put
    ensures written { Writes (O.written out.old) (O.written out.new) result (part_bytes part.now) }
    ensures cause { HasCause (O.faults out.old) (O.faults out.new) (result ≡ Put.Failed) }
{
    match part {
        Part::Text(text) => out.put(text),
        Part::Number(number) => out.put(Buffer::new().format(*number).as_bytes()),
        Part::Word(word) => put_word(out, word),
    }
}

/// Prints the parts, and a line end.
fn print_line<O: Sink>(out: &mut O, parts: &[Part<'_>])
    ensures printed { Prints (line_of (map part_bytes parts.now)) (record { written = O.written out.old; faults = O.faults out.old }) (record { written = O.written out.new; faults = O.faults out.new }) }
{
    for part in parts {
        match put_part(out, part) {
            Put::Done => {}
            Put::Failed => return,
        }
    }
    let _ = out.put(b"\n");
}

/// Prints what is wrong of the command line, and how the program is called.
pub fn print_wrong<O: Sink>(out: &mut O, wrong: WrongWord<'_>)
    ensures printed { Prints (wrong_line (wrong_in wrong.entry)) (record { written = O.written out.old; faults = O.faults out.old }) (record { written = O.written out.new; faults = O.faults out.new }) }
{
    let word = wrong.word.as_bytes();
    print_line(
        out,
        &[
            Part::Text(b"jsblock: "),
            Part::Text(wrong.mistake.text().as_bytes()),
            Part::Word(word),
            Part::Text(dots_of(word)),
            Part::Text(b"\n"),
            Part::Text(USAGE.as_bytes()),
        ],
    );
}

/// Prints the number.
pub fn print_number<O: Sink>(out: &mut O, number: u32)
    ensures printed { Prints (number_line number) (record { written = O.written out.old; faults = O.faults out.old }) (record { written = O.written out.new; faults = O.faults out.new }) }
{
    print_line(out, &[Part::Number(u64::from(number))]);
}

/// The zeros before the number of a place in the name of its folder.
fn place_zeros(place: u32) -> &'static [u8]
    ensures value { result.now ≡ place_zeros place }
{
    if place < 10 { b"0" } else { b"" }
}

/// The zeros before the number of a file in its name.
fn file_zeros(file: u32) -> &'static [u8]
    ensures value { result.now ≡ file_zeros file }
{
    match file {
        0..=9 => b"0000",
        10..=99 => b"000",
        100..=999 => b"00",
        1000..=9999 => b"0",
        _ => b"",
    }
}

/// Prints that the volume of this place failed.
pub fn print_disk_fault<O: Sink>(out: &mut O, place: u32)
    ensures printed { Prints (disk_fault_line place) (record { written = O.written out.old; faults = O.faults out.old }) (record { written = O.written out.new; faults = O.faults out.new }) }
{
    print_line(
        out,
        &[
            Part::Text(b"disk fault in place-"),
            Part::Text(place_zeros(place)),
            Part::Number(u64::from(place)),
        ],
    );
}

/// Prints that there is no room for what this place may have to write.
pub fn print_no_room<O: Sink>(out: &mut O, place: u32)
    ensures printed { Prints (no_room_line place) (record { written = O.written out.old; faults = O.faults out.old }) (record { written = O.written out.new; faults = O.faults out.new }) }
{
    print_line(
        out,
        &[
            Part::Text(b"no room for place-"),
            Part::Text(place_zeros(place)),
            Part::Number(u64::from(place)),
        ],
    );
}

/// Prints that a file of the place holds bytes that no place writes, and from which one on, counted from 0.
pub fn print_damaged<O: Sink>(out: &mut O, place: u32, file: u32, at: u64)
    ensures printed { Prints (damaged_line place file at) (record { written = O.written out.old; faults = O.faults out.old }) (record { written = O.written out.new; faults = O.faults out.new }) }
{
    print_line(
        out,
        &[
            Part::Text(b"damaged place-"),
            Part::Text(place_zeros(place)),
            Part::Number(u64::from(place)),
            Part::Text(b"/f"),
            Part::Text(file_zeros(file)),
            Part::Number(u64::from(file)),
            Part::Text(b" at "),
            Part::Number(at),
        ],
    );
}

/// Prints that the volume of this place is written in a version that is not known.
pub fn print_version<O: Sink>(out: &mut O, version: u64, place: u32)
    ensures printed { Prints (version_line version place) (record { written = O.written out.old; faults = O.faults out.old }) (record { written = O.written out.new; faults = O.faults out.new }) }
{
    print_line(
        out,
        &[
            Part::Text(b"unknown version "),
            Part::Number(version),
            Part::Text(b" in place-"),
            Part::Text(place_zeros(place)),
            Part::Number(u64::from(place)),
        ],
    );
}

/// Prints that the streams of two places share a name or a subject.
pub fn print_conflict<O: Sink>(out: &mut O, first: u32, second: u32)
    ensures printed { Prints (conflict_line first second) (record { written = O.written out.old; faults = O.faults out.old }) (record { written = O.written out.new; faults = O.faults out.new }) }
{
    print_line(
        out,
        &[
            Part::Text(b"place-"),
            Part::Text(place_zeros(first)),
            Part::Number(u64::from(first)),
            Part::Text(b" and place-"),
            Part::Text(place_zeros(second)),
            Part::Number(u64::from(second)),
            Part::Text(b" conflict"),
        ],
    );
}
