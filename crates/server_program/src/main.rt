//! The program: the server over standard input and output, or over TCP.
#![tactic(auto)]

mod help;
mod telling;

ghost use Rattle.std.specs.Prelude.{◌≤◌, ◌≡◌, IfOk, vec_len};

use crate::help::Request;
use crate::telling::{ListenLine, tell_end, tell_lock_fault, tell_no_text, tell_unbound};
use folder_lock::FolderLock;
use link_edge::{Door, Notice, OpenGate, PipeDoor, SystemClock, Unnoticed, WriterSink};
use memory_place::MemoryPlace;
use place_engine::Place;
use server::{Command, Finish, FolderPath, Listening, WordsFault, read_words, run};
use std::alloc::AllocError;
use std::env;
use std::io::{self, ErrorKind, Write};
use std::process::ExitCode;
use std::sync::Wait;
use std::thread::Threads;
use tcp_edge::{Rings, TcpDoor};
use vol_disk::DirVol;
use volume_place::VolumePlace;

/// How many volumes the program has.
const VOLUMES: u32 = 32;

/// The status if standard output fails while a text that was asked for is printed.
const UNWRITTEN: u8 = 9;

/// The status if a word of the command line is no text.
const NO_TEXT: u8 = 2;

/// The status if the address can't be listened at.
const UNBOUND: u8 = 8;

/// The status if the folder can't be had.
const UNLOCKED: u8 = 75;

/// The status if memory runs out.
const STARVED: u8 = 7;

/// The command line after the program's name. If a part of it is not UTF-8 the error is `InvalidData`.
fn words_of(rt: &HostRuntime) -> io::Result<Vec<String>> {
    let mut words = Vec::new(rt.alloc());
    for word in env::args(rt)?.skip(1) {
        words.push(word)?;
    }
    Ok(words)
}

/// Prints the text to standard output, and returns the status.
fn print(rt: &HostRuntime, text: &[u8]) -> u8 {
    let mut output = io::writer(rt);
    if output.write_all(text).is_ok() && output.flush().is_ok() {
        0
    } else {
        UNWRITTEN
    }
}

/// A volume for each place, in the folder `dir`.
fn folder_volumes(rt: &HostRuntime, dir: &str) -> Result<Vec<DirVol>, AllocError>
    ensures few { IfOk result (λ vols. vec_len vols ≤ 32) }
{
    let mut vols = Vec::new(rt.alloc());
    for place in 0..VOLUMES {
        vols.push(DirVol::open(rt, dir, place))?;
    }
    Ok(vols)
}

/// Serves the links of a door over places of one kind, and returns the status.
fn serve_door<P: Place + Send + Sync, R: Door + Send + Drop, N: Notice, T: Threads + Wait + Sync>(
    rt: &HostRuntime,
    threads: &T,
    words: &[String],
    door: R,
    vols: Vec<P::Vol>,
    notice: &mut N,
) -> u8
where
    R::Link: Rings + Send,
    P::Vol: Sync + Drop,
    requires few { vec_len vols ≤ 32 }
{
    let mut clock = SystemClock::new(rt);
    let mut out = WriterSink::new(rt.stderr());
    let finish: Finish<R, P::Vol> = run::<P, _, _, _, _, _, _>(
        threads,
        rt.alloc(),
        words,
        door,
        vols,
        &mut clock,
        &OpenGate,
        notice,
        &mut out,
    );
    finish.status
}

/// Serves standard input and output over places of one kind, and returns the status.
fn serve_pipe<P: Place + Send + Sync, T: Threads + Wait + Sync>(
    rt: &HostRuntime,
    threads: &T,
    words: &[String],
    vols: Vec<P::Vol>,
) -> u8
where
    P::Vol: Sync + Drop,
    requires few { vec_len vols ≤ 32 }
{
    let door = PipeDoor::new(rt.stdin(), rt.stdout());
    serve_door::<P, _, _, T>(rt, threads, words, door, vols, &mut Unnoticed)
}

/// Serves the links that come to an address over a folder, which nobody else writes meanwhile, and returns the status. The folder is not touched unless the
/// address can be listened at.
fn serve_address<T: Threads + Wait + Sync>(
    rt: &HostRuntime,
    threads: &T,
    words: &[String],
    listening: &Listening,
) -> Result<u8, AllocError> {
    let door = match TcpDoor::bind(*rt, rt.alloc(), listening.listen) {
        Ok(door) => door,
        Err(error) => {
            tell_unbound(rt, listening.listen, &error);
            return Ok(UNBOUND);
        }
    };
    let dir = listening.dir.as_str();
    let _lock = match FolderLock::take(rt, dir) {
        Ok(lock) => lock,
        Err(fault) => {
            tell_lock_fault(rt, dir, &fault);
            return Ok(UNLOCKED);
        }
    };
    let vols = folder_volumes(rt, dir)?;
    let address = door.address();
    let mut line = ListenLine { rt, address, dir };
    let status = serve_door::<VolumePlace<DirVol>, _, _, T>(
        rt, threads, words, door, vols, &mut line,
    );
    tell_end(rt, dir, status);
    Ok(status)
}

/// Serves over the folder `dir`, which nobody else writes meanwhile, and returns the status.
fn serve_folder<T: Threads + Wait + Sync>(
    rt: &HostRuntime,
    threads: &T,
    words: &[String],
    dir: &str,
) -> Result<u8, AllocError> {
    let _lock = match FolderLock::take(rt, dir) {
        Ok(lock) => lock,
        Err(fault) => {
            tell_lock_fault(rt, dir, &fault);
            return Ok(UNLOCKED);
        }
    };
    let vols = folder_volumes(rt, dir)?;
    Ok(serve_pipe::<VolumePlace<DirVol>, T>(rt, threads, words, vols))
}

/// Serves over places in memory, and returns the status.
fn serve_memory<T: Threads + Wait + Sync>(
    rt: &HostRuntime,
    threads: &T,
    words: &[String],
) -> Result<u8, AllocError> {
    let vols = vec![in rt.alloc(); (); VOLUMES as usize]?;
    Ok(serve_pipe::<MemoryPlace<()>, T>(rt, threads, words, vols))
}

/// Prints that the command line is refused, and returns the status. No volumes are made for it.
fn refuse_words<T: Threads + Wait + Sync>(rt: &HostRuntime, threads: &T, words: &[String]) -> u8 {
    serve_pipe::<MemoryPlace<()>, T>(rt, threads, words, Vec::new(rt.alloc()))
}

/// Serves standard input and output as the command line asks for, and returns the status.
fn serve_input<T: Threads + Wait + Sync>(
    rt: &HostRuntime,
    threads: &T,
    words: &[String],
    dir: Option<FolderPath>,
) -> Result<u8, AllocError> {
    match dir {
        Some(dir) => serve_folder(rt, threads, words, dir.as_str()),
        None => serve_memory(rt, threads, words),
    }
}

/// Prints the text that the command line asks for, and returns the status.
fn answer(rt: &HostRuntime, request: Request) -> u8 {
    match request.text(rt.alloc()) {
        Ok(text) => print(rt, text.as_bytes()),
        Err(AllocError) => STARVED,
    }
}

/// Does what the command line asks for, and returns the status.
fn main(rt: HostRuntime) -> ExitCode {
    let words = match words_of(&rt) {
        Ok(words) => words,
        Err(error) if error.kind() == ErrorKind::InvalidData => {
            tell_no_text(&rt);
            return ExitCode::from(NO_TEXT);
        }
        Err(_) => return ExitCode::from(STARVED),
    };
    if let Some(request) = Request::of(&words) {
        return ExitCode::from(answer(&rt, request));
    }
    let ended = match read_words(rt.alloc(), &words) {
        Ok(
            Command::Pipe {
                dir,
                stream: _stream,
            },
        ) => serve_input(&rt, &rt, &words, dir),
        Ok(Command::Serve(listening)) => serve_address(&rt, &rt, &words, &listening),
        Err(WordsFault::Wrong(_)) => Ok(refuse_words(&rt, &rt, &words)),
        Err(WordsFault::NoMemory) => Err(AllocError),
    };
    ExitCode::from(ended.unwrap_or(STARVED))
}
