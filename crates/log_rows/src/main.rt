//! Reads the sound files of volumes from standard input, field by field, and rows that each damage them, and prints what is told of each damaged volume.
//!
//! A line has one of these forms, and `BYTES` are hexadecimal:
//!
//! | line | meaning |
//! |---|---|
//! | `# TEXT` | nothing |
//! | `volume` | the next lines tell of another volume, which has no file yet |
//! | `file NUMBER` | the next lines tell of the file with this number |
//! | `field NAME BYTES`, `text NAME TEXT` | the file has a field with these bytes next |
//! | `gate NAME BYTES` | a gate comes next, before the batch that the next fields are |
//! | `message NAME BYTES` | the length of a message comes next, which the next fields are |
//! | `length NAME` | the length of a batch comes next: the bytes from there to the next gate but for a checksum, as they are counted when a row has changed them |
//! | `size NAME` | the length of the next field comes next, counted in the same way |
//! | `sum NAME` | the checksum of the batch or the message comes next: of the bytes from there to the next gate, message or checksum, counted in the same way |
//! | `head NAME` | the checksum of the bytes before it comes next |
//! | `row CHANGE; CHANGE` | of the sound volume with these changes, one after the other, the log in its first file is read, and the records of each batch |
//! | `open CHANGE; CHANGE` | the volume with these changes is opened as a store |
//!
//! A change is `put NAME BYTES` or `say NAME TEXT`, which put other bytes in place of a field's; `without NAME`, `twice NAME` or
//! `exchange NAME NAME`, of two fields of a file; `end NAME COUNT`, which ends a batch so many bytes behind the beginning of a field; `cut NAME COUNT`, which
//! so ends the file, and is the last one of it; or `move NAME NUMBER`, by which the file that has the field gets another number.
#![tactic(auto)]

mod change;
mod damage;
mod holding;
mod line;
mod log_file;
mod naming;
mod opening;
mod spelling;
mod telling;
mod volume;

use damage::damaged;
use line::{LineFault, split_word};
use opening::opened;
use std::alloc::Global;
use std::io::{self, ErrorKind, Read, Write};
use std::process::ExitCode;
use telling::told;
use volume::Volume;

/// All of standard input.
fn read_all(rt: &HostRuntime) -> io::Result<Vec<u8>> {
    let mut input = Vec::new(rt.alloc());
    rt.stdin().read_to_end(&mut input)?;
    Ok(input)
}

/// What is told of the log in a volume's first file.
fn log_told(alloc: Global, volume: &Volume) -> Result<String, LineFault> {
    match volume.files.first() {
        Some(file) => told(alloc, file.bytes(alloc)?.as_slice()),
        None => Err(LineFault::Bad),
    }
}

/// The row, and what is told of the volume that it damages.
fn row_line(alloc: Global, volume: &Volume, word: &[u8], row: &[u8]) -> Result<Vec<u8>, LineFault> {
    let volume = damaged(alloc, volume, row)?;
    let text = match word {
        b"open" => opened(alloc, &volume)?,
        _ => log_told(alloc, &volume)?,
    };
    let mut line = Vec::from_slice(alloc, row)?;
    line.extend_from_slice(b": ")?;
    line.extend_from_slice(text.as_bytes())?;
    line.push(b'\n')?;
    Ok(line)
}

/// Reads a line, and tells what it says to print.
fn read_line(alloc: Global, volume: &mut Volume, line: &[u8]) -> Result<Vec<u8>, LineFault> {
    let (word, rest) = split_word(line);
    match word {
        b"row" | b"open" => return row_line(alloc, volume, word, rest),
        b"#" | b"" => {}
        b"volume" => *volume = Volume::new(alloc),
        _ => volume.read(alloc, word, rest)?,
    }
    Ok(Vec::new(alloc))
}

/// Prints what the lines are told, and answers the number of the first that is not in the language.
fn print_all<W: Write>(alloc: Global, output: &mut W, input: &[u8]) -> io::Result<Option<usize>> {
    let mut volume = Volume::new(alloc);
    let lines = input.strip_suffix(b"\n").unwrap_or(input);
    for (place, line) in lines.split(|byte| *byte == b'\n').enumerate() {
        match read_line(alloc, &mut volume, line) {
            Ok(text) => output.write_all(text.as_slice())?,
            Err(LineFault::Bad) => return Ok(Some(place)),
            Err(LineFault::NoMemory) => return Err(io::Error::from(ErrorKind::OutOfMemory)),
        }
    }
    Ok(None)
}

fn main(rt: HostRuntime) -> io::Result<ExitCode> {
    let input = read_all(&rt)?;
    let mut output = io::writer(&rt);
    match print_all(rt.alloc(), &mut output, &input)? {
        None => Ok(ExitCode::SUCCESS),
        Some(place) => {
            println!(rt; "bad line: {place} lines stand before it")?;
            Ok(ExitCode::FAILURE)
        }
    }
}
