//! Measures what the bytes of standard input cost the decoder alone, or a whole session over a stream in memory. The input comes from memory, in
//! pieces of stated length. `bench/decoder` and `bench/path` run this program.
#![tactic(auto)]

ghost use Rattle.std.specs.Prelude.{◌<◌};

mod cut_link;
mod decoding;
mod measurement;
mod serving;
mod still_clock;

use decoding::decode;
use link_edge::{Clock, SystemClock};
use measurement::Measurement;
use serving::{Served, serve};
use std::env;
use std::io::{self, Read, Write};
use std::process::ExitCode;
use still_clock::StillClock;

/// The measurement that the words after the program's name ask for.
fn measurement_of(rt: &HostRuntime) -> Option<Measurement> {
    let mut words = env::args(rt).ok()?.skip(1);
    let name = words.next()?;
    let size = words.next()?;
    match words.next() {
        Some(_) => None,
        None => Measurement::read(name.as_bytes(), size.as_bytes()),
    }
}

/// All of standard input.
fn read_all(rt: &HostRuntime) -> io::Result<Vec<u8>> {
    let mut input = Vec::new(rt.alloc());
    rt.stdin().read_to_end(&mut input)?;
    Ok(input)
}

/// Decodes the input as a client's operations, and prints how many operations and bytes there were.
fn count_operations(rt: &HostRuntime, input: &[u8], size: usize) -> io::Result<ExitCode> {
    match decode(rt.alloc(), input, size) {
        Ok(operations) => {
            println!(rt; "operations={operations} bytes={}", input.len())?;
            Ok(ExitCode::SUCCESS)
        }
        Err(fault) => {
            println!(rt; "{fault}")?;
            Ok(ExitCode::FAILURE)
        }
    }
}

/// Serves the input as one client's session, while the clock stands still, and prints how many bytes came, how many were given and how the
/// session ended.
fn serve_session(rt: &HostRuntime, input: Vec<u8>, size: usize) -> io::Result<ExitCode>
    requires size { 0 < size }
{
    let bytes = input.len();
    let mut clock = StillClock {
        moment: SystemClock::new(rt).now(),
    };
    match serve(rt.alloc(), input, size, &mut clock) {
        Ok(Served { left, given, ended }) => {
            println!(rt; "bytes={bytes} left={left} given={given} ended={ended:?}")?;
            Ok(ExitCode::SUCCESS)
        }
        Err(_) => {
            println!(rt; "out of memory")?;
            Ok(ExitCode::FAILURE)
        }
    }
}

/// Measures a session, or the reading of its input alone.
fn measure_path(rt: &HostRuntime, input: Vec<u8>, size: usize) -> io::Result<ExitCode> {
    if size == 0 {
        println!(rt; "bytes={}", input.len())?;
        return Ok(ExitCode::SUCCESS);
    }
    serve_session(rt, input, size)
}

fn main(rt: HostRuntime) -> io::Result<ExitCode> {
    let Some(measurement) = measurement_of(&rt) else {
        println!(rt; "usage: bench_program decode SIZE\n       bench_program path SIZE")?;
        return Ok(ExitCode::FAILURE);
    };
    let input = read_all(&rt)?;
    match measurement {
        Measurement::Decode { size } => count_operations(&rt, input.as_slice(), size),
        Measurement::Path { size } => measure_path(&rt, input, size),
    }
}
