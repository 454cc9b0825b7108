//! What a row came to, in lines.

ghost use Rattle.std.specs.Prelude.{◌<◌};

use crate::outcome::Outcome;
use crate::row::Row;
use crate::running::run_row;
use crate::text::spelling;
use std::alloc::Global;
use std::io::{self, ErrorKind, Write};
use std::sync::Wait;
use std::thread::Threads;

/// The most bytes of a piece of input that is not cut.
const PIECE: usize = 65_536;

/// From how many bytes on those of one kind are counted, and not spelled.
const COUNTED: usize = 1_025;

/// Prints a line with a mark, and the text that spells the bytes, if there are any.
fn print_line<W: Write>(alloc: Global, output: &mut W, mark: &str, bytes: &[u8]) -> io::Result<()> {
    output.write_all(mark.as_bytes())?;
    if !bytes.is_empty() {
        output.write_all(b" ")?;
        output.write_all(&spelling(alloc, bytes)?)?;
    }
    output.write_all(b"\n")
}

/// Prints the count and the byte of bytes that are many and all the same, and answers whether they are.
fn print_repeated<W: Write>(alloc: Global, output: &mut W, bytes: &[u8]) -> io::Result<bool> {
    let [first, ..] = bytes else {
        return Ok(false);
    };
    if bytes.len() < COUNTED || bytes.iter().any(|byte| byte != first) {
        return Ok(false);
    }
    let count = format!(in alloc; "{} ", bytes.len())?;
    output.write_all(b"S* ")?;
    output.write_all(count.as_bytes())?;
    output.write_all(&spelling(alloc, &[*first])?)?;
    output.write_all(b"\n")?;
    Ok(true)
}

/// Prints a line that was given, without its CR LF.
fn print_given_line<W: Write>(alloc: Global, output: &mut W, line: &[u8]) -> io::Result<()> {
    if print_repeated(alloc, output, line)? {
        return print_line(alloc, output, "S:", b"");
    }
    print_line(alloc, output, "S:", line)
}

/// Prints what stands behind the last CR LF.
fn print_rest<W: Write>(alloc: Global, output: &mut W, rest: &[u8]) -> io::Result<()> {
    if rest.is_empty() || print_repeated(alloc, output, rest)? {
        return Ok(());
    }
    print_line(alloc, output, "S|", rest)
}

/// Prints all that was given.
fn print_given<W: Write>(alloc: Global, output: &mut W, given: &[u8]) -> io::Result<()> {
    let mut line = Vec::new(alloc);
    for byte in given {
        line.push(*byte)?;
        if let Some(text) = line.strip_suffix(b"\r\n") {
            print_given_line(alloc, output, text)?;
            line.clear();
        }
    }
    print_rest(alloc, output, &line)
}

/// Prints what a run came to.
fn print_outcome<W: Write>(alloc: Global, output: &mut W, outcome: &Outcome) -> io::Result<()> {
    print_given(alloc, output, &outcome.given)?;
    if !outcome.printed.is_empty() {
        print_line(alloc, output, "printed", &outcome.printed)?;
    }
    let status = format!(in alloc; "status {}\n", outcome.status)?;
    output.write_all(status.as_bytes())
}

/// What a run of the row comes to, with the links' pieces of at most so many bytes.
fn outcome_of(
    rt: &(impl Threads + Wait + Sync),
    alloc: Global,
    row: &Row,
    size: usize,
) -> io::Result<Outcome>
    requires size { 0 < size }
{
    match run_row(rt, alloc, row, size) {
        Ok(outcome) => Ok(outcome),
        Err(_) => Err(io::Error::from(ErrorKind::OutOfMemory)),
    }
}

/// Runs the row cut into single bytes, and tells whether that came to the same.
fn cut_line(
    rt: &(impl Threads + Wait + Sync),
    alloc: Global,
    row: &Row,
    outcome: &Outcome,
) -> io::Result<&'static [u8]> {
    if row.is_whole {
        return Ok(b"cut none\n");
    }
    let cut = outcome_of(rt, alloc, row, 1)?;
    if cut == *outcome {
        Ok(b"cut same\n")
    } else {
        Ok(b"cut other\n")
    }
}

/// Runs the row, and prints its title and what it came to.
pub(crate) fn print_row<W: Write>(
    rt: &(impl Threads + Wait + Sync),
    alloc: Global,
    output: &mut W,
    row: &Row,
) -> io::Result<()> {
    let outcome = outcome_of(rt, alloc, row, PIECE)?;
    print_line(alloc, output, "row", &row.title)?;
    print_outcome(alloc, output, &outcome)?;
    output.write_all(cut_line(rt, alloc, row, &outcome)?)
}
