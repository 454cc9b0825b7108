//! Measures turns at a lock: counts so many times in each of one, two or four threads, and prints the count. `bench/turns` runs this program.
#![tactic(auto)]

use js_base::read_decimal;
use std::alloc::Global;
use std::process::ExitCode;
use std::sync::Wait;
use std::thread::Threads;
use std::{env, io};
use turn_counter::{count_alone, count_both, count_four};

/// How many threads count, and how many times each.
#[derive(Clone, Copy)]
struct Measurement {
    threads: u64,
    times: u32,
}

/// The measurement that the words after the program's name ask for.
fn measurement_of(rt: &HostRuntime) -> Option<Measurement> {
    let mut words = env::args(rt).ok()?.skip(1);
    let threads = read_decimal(words.next()?.as_bytes()).ok()?;
    let times = u32::try_from(read_decimal(words.next()?.as_bytes()).ok()?).ok()?;
    match words.next() {
        Some(_) => None,
        None => Some(Measurement { threads, times }),
    }
}

/// The count, or `None` for another number of threads or where it could not count.
fn count<R: Threads + Wait + Sync>(rt: &R, alloc: Global, measurement: Measurement) -> Option<u64> {
    let Measurement { threads, times } = measurement;
    match threads {
        1 => count_alone(rt, alloc, times),
        2 => count_both(rt, alloc, times),
        4 => count_four(rt, alloc, times),
        _ => None,
    }
}

fn main(rt: HostRuntime) -> io::Result<ExitCode> {
    let counted = match measurement_of(&rt) {
        Some(measurement) => count(&rt, rt.alloc(), measurement),
        None => None,
    };
    match counted {
        Some(turns) => {
            println!(rt; "turns={turns}")?;
            Ok(ExitCode::SUCCESS)
        }
        None => {
            println!(rt; "usage: bench_turns THREADS TIMES, with 1, 2 or 4 threads")?;
            Ok(ExitCode::FAILURE)
        }
    }
}
