//! Runs of a row through the server.

ghost use Rattle.std.specs.Prelude.{◌<◌};

use crate::outcome::Outcome;
use crate::row::{DoorScript, LinkScript, Row, Turn, begin};
use js_base::{Blob, List, Moment, NoMemory};
use link_edge::{Knock, MemClock, MemDoor, MemLink, MemSink, OpenGate, Said, Unnoticed};
use memory_place::MemoryPlace;
use server::{Finish, run};
use std::alloc::Global;
use std::sync::Wait;
use std::thread::Threads;

fn numbers(alloc: Global, of: &[u64]) -> Result<List<u64>, NoMemory> {
    Ok(List::from_vec(Vec::from_slice(alloc, of)?))
}

/// Adds what a link says in a turn, in pieces of at most so many bytes.
fn add_turn(
    alloc: Global,
    script: &mut List<Said>,
    turn: &Turn,
    size: usize,
) -> Result<(), NoMemory>
    requires size { 0 < size }
{
    for piece in turn.bytes.chunks(size) {
        script.push(Said::Piece(Blob::of(alloc, piece)?))?;
    }
    for _ in 0..turn.quiet {
        script.push(Said::Quiet)?;
    }
    Ok(())
}

/// What a link says, in pieces of at most so many bytes.
fn script_of(alloc: Global, link: &LinkScript, size: usize) -> Result<List<Said>, NoMemory>
    requires size { 0 < size }
{
    let mut script = List::new(alloc);
    for turn in link.turns.iter() {
        add_turn(alloc, &mut script, turn, size)?;
    }
    Ok(script)
}

/// Adds so many times that nobody comes.
fn add_quiet(knocks: &mut List<Knock>, count: u64) -> Result<(), NoMemory> {
    for _ in 0..count {
        knocks.push(Knock::Quiet)?;
    }
    Ok(())
}

/// The door that plays the script, with the links' pieces of at most so many bytes.
fn door_of(alloc: Global, door: &DoorScript, size: usize) -> Result<List<Knock>, NoMemory>
    requires size { 0 < size }
{
    let mut knocks = List::new(alloc);
    for link in door.links.iter() {
        add_quiet(&mut knocks, link.quiet)?;
        knocks.push(Knock::Link {
            script: script_of(alloc, link, size)?,
            failing: numbers(alloc, &link.failing)?,
        })?;
    }
    add_quiet(&mut knocks, door.quiet)?;
    Ok(knocks)
}

/// Adds the moment of a turn for each of its takes.
fn add_moments(moments: &mut List<Moment>, turn: &Turn, size: usize) -> Result<(), NoMemory>
    requires size { 0 < size }
{
    for _ in turn.bytes.chunks(size) {
        moments.push(turn.moment)?;
    }
    for _ in 0..turn.quiet {
        moments.push(turn.moment)?;
    }
    Ok(())
}

/// Whether the command line names a stream.
fn names_stream(words: &[String]) -> bool {
    words
        .iter()
        .any(|word| word.as_bytes().starts_with(b"--stream"))
}

/// The clock that tells the moments of a row. It is read once for the stream that the command line names, if it names one, and then once a take.
fn clock_of(alloc: Global, row: &Row, size: usize) -> Result<MemClock, NoMemory>
    requires size { 0 < size }
{
    let mut last = begin();
    let mut moments = List::new(alloc);
    if names_stream(&row.words) {
        moments.push(last)?;
    }
    for link in row.door.links.iter() {
        for turn in link.turns.iter() {
            add_moments(&mut moments, turn, size)?;
            last = turn.moment;
        }
    }
    Ok(MemClock::new(moments, last))
}

/// All bytes that the links were given.
fn given(alloc: Global, links: &[MemLink]) -> Result<Vec<u8>, NoMemory> {
    let mut all = Vec::new(alloc);
    for link in links {
        all.extend_from_slice(link.given())?;
    }
    Ok(all)
}

/// Runs the row, with the links' pieces of at most so many bytes.
pub(crate) fn run_row(
    rt: &(impl Threads + Wait + Sync),
    alloc: Global,
    row: &Row,
    size: usize,
) -> Result<Outcome, NoMemory>
    requires size { 0 < size }
{
    let knocks = door_of(alloc, &row.door, size)?;
    let door = MemDoor::failing(alloc, knocks, numbers(alloc, &row.door.failing)?)?;
    let volumes = vec![in alloc; (); row.volumes.count]?;
    let mut clock = clock_of(alloc, row, size)?;
    let mut sink = MemSink::failing(alloc, numbers(alloc, &row.sink_failing)?);
    let finish: Finish<MemDoor, ()> = run::<MemoryPlace<()>, _, _, _, _, _, _>(
        rt,
        alloc,
        &row.words,
        door,
        volumes,
        &mut clock,
        &OpenGate,
        &mut Unnoticed,
        &mut sink,
    );
    Ok(Outcome {
        status: finish.status,
        given: given(alloc, finish.door.back())?,
        printed: Vec::from_slice(alloc, sink.written())?,
    })
}
