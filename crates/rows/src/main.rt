//! Reads a script of rows from standard input, runs each through the server over forms in memory, and prints what it came to. rows/README.md
//! describes the language.
#![tactic(auto)]

mod line;
mod outcome;
mod printing;
mod row;
mod row_reader;
mod running;
mod script;
mod text;

use printing::print_row;
use row::Row;
use script::{ScriptFault, read_script};
use std::io::{self, Read};
use std::process::ExitCode;
use std::sync::Wait;
use std::thread::Threads;

/// All of standard input.
fn read_all(rt: &HostRuntime) -> io::Result<Vec<u8>> {
    let mut input = Vec::new(rt.alloc());
    rt.stdin().read_to_end(&mut input)?;
    Ok(input)
}

/// Runs each row, and prints what it came to.
fn run_all(
    rt: &HostRuntime,
    threads: &(impl Threads + Wait + Sync),
    rows: &[Row],
) -> io::Result<()> {
    let mut output = io::writer(rt);
    for row in rows {
        print_row(threads, rt.alloc(), &mut output, row)?;
    }
    Ok(())
}

fn main(rt: HostRuntime) -> io::Result<ExitCode> {
    let input = read_all(&rt)?;
    match read_script(rt.alloc(), &input) {
        Ok(rows) => {
            run_all(&rt, &rt, &rows)?;
            Ok(ExitCode::SUCCESS)
        }
        Err(ScriptFault::BadLine(number)) => {
            println!(rt; "bad line {number}")?;
            Ok(ExitCode::FAILURE)
        }
        Err(ScriptFault::NoMemory) => {
            println!(rt; "out of memory")?;
            Ok(ExitCode::FAILURE)
        }
    }
}
