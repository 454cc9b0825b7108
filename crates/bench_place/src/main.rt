//! Measures steps of a place in memory: leads it to a state, makes one kind of step so many times, and prints what the place holds then.
//! `bench/place` runs this program.
#![tactic(auto)]

mod measurement;
mod measuring;

use measurement::{Kind, Measurement, number, retention_named};
use measuring::{Held, measure};
use place_drive::Driven;
use std::process::ExitCode;
use std::{env, io};

/// The measurement that the words after the program's name ask for.
fn measurement_of(rt: &HostRuntime) -> Option<Measurement> {
    let mut words = env::args(rt).ok()?.skip(1);
    let kind = Kind::named(words.next()?.as_bytes())?;
    let retention = retention_named(words.next()?.as_bytes())?;
    let stored = number(words.next()?.as_bytes())?;
    let pending = number(words.next()?.as_bytes())?;
    let others = u8::try_from(number(words.next()?.as_bytes())?).ok()?;
    let steps = number(words.next()?.as_bytes())?;
    match words.next() {
        Some(_) => None,
        None => Some(Measurement {
            kind,
            retention,
            stored,
            pending,
            others,
            steps,
        }),
    }
}

/// Makes the steps, and prints what the place holds then.
fn print_measured(
    rt: &HostRuntime,
    place: &mut Driven,
    measurement: Measurement,
) -> io::Result<ExitCode> {
    match measure(place, rt.alloc(), measurement) {
        Ok(Held { messages, pending }) => {
            println!(rt; "messages={messages} pending={pending}")?;
            Ok(ExitCode::SUCCESS)
        }
        Err(_) => print_failure(rt, "out of memory"),
    }
}

fn print_failure(rt: &HostRuntime, told: &str) -> io::Result<ExitCode> {
    println!(rt; "{told}")?;
    Ok(ExitCode::FAILURE)
}

fn main(rt: HostRuntime) -> io::Result<ExitCode> {
    let Some(measurement) = measurement_of(&rt) else {
        return print_failure(
            &rt,
            "usage: bench_place deliver|progress|tick|publish|look limits|interest STORED PENDING OTHERS STEPS",
        );
    };
    match Driven::open(rt.alloc()) {
        Ok(mut place) => print_measured(&rt, &mut place, measurement),
        Err(_) => print_failure(&rt, "out of memory"),
    }
}
