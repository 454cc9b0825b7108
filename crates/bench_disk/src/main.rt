//! Measures a log of records on a volume over a folder: it is filled, opened with all its records, and appended to; writes without a sync; and the
//! opening of a volume as a store. `bench/appends` and `bench/openings` run this program. And makes room in files, which `tools/full_disk` runs.
#![tactic(auto)]

mod job;
mod reading;
mod rooms;
mod writing;

use job::Job;
use reading::{open, open_store};
use rooms::{clear, make};
use std::alloc::Global;
use std::process::ExitCode;
use std::{env, io};
use vol_disk::DirVol;
use writing::{append, fill, write};

/// The folder and the job that the words after the program's name ask for.
fn asked(rt: &HostRuntime) -> Option<(String, Job)> {
    let mut words = env::args(rt).ok()?.skip(1);
    let name = words.next()?;
    let folder = words.next()?;
    let count = words.next();
    let size = words.next();
    match words.next() {
        Some(_) => None,
        None => Some((folder, Job::read(name.as_str(), count, size)?)),
    }
}

/// How many records, batches, messages or files there were, or `None` if something failed.
fn done(alloc: Global, vol: &mut DirVol, job: Job) -> Option<u64> {
    match job {
        Job::Fill { records } => fill(alloc, vol, records),
        Job::Open => open(alloc, vol),
        Job::Store => open_store(alloc, vol),
        Job::Append { batches, size } => append(alloc, vol, batches, size),
        Job::Room { files } => make(vol, files),
        Job::Clear { files } => clear(vol, files),
        Job::Write { batches, size } => write(alloc, vol, batches, size),
    }
}

fn main(rt: HostRuntime) -> io::Result<ExitCode> {
    let Some((folder, job)) = asked(&rt) else {
        println!(rt;
            "usage: bench_disk fill DIR RECORDS | open DIR | store DIR | append DIR BATCHES SIZE | write DIR BATCHES SIZE | room DIR FILES | clear DIR FILES"
        )?;
        return Ok(ExitCode::FAILURE);
    };
    let mut vol = DirVol::open(&rt, folder.as_str(), 0);
    match done(rt.alloc(), &mut vol, job) {
        Some(count) => {
            println!(rt; "count={count}")?;
            Ok(ExitCode::SUCCESS)
        }
        None => {
            println!(rt; "failed")?;
            Ok(ExitCode::FAILURE)
        }
    }
}
