//! Runs for a client that says one thing after the other, each at its moment.

ghost use Rattle.std.specs.Prelude.{◌<◌};

use crate::runs::{Outcome, door_of, moment_after, run_once};
use js_base::{Blob, List, Moment, NoMemory};
use link_edge::{MemClock, Said};
use std::alloc::Global;
use std::sync::Wait;
use std::test::Fail;
use std::thread::Threads;
use vol_disk::MemVol;

/// What a client says, and the moment of each take. Moments are told in nanoseconds after [`crate::runs::START`].
#[derive(Drop)]
pub(crate) struct Script {
    said: List<Said>,
    moments: List<Moment>,
}

impl Script {
    pub(crate) fn new(alloc: Global) -> Script {
        Script {
            said: List::new(alloc),
            moments: List::new(alloc),
        }
    }

    fn push(&mut self, said: Said, moment: Moment) -> Result<(), NoMemory> {
        self.said.push(said)?;
        self.moments.push(moment)
    }

    /// Adds that the client is quiet for one take.
    pub(crate) fn rest(&mut self, at: u64) -> Result<(), Fail> {
        Ok(self.push(Said::Quiet, moment_after(at)?)?)
    }

    /// Adds that it says this, in pieces of at most so many bytes.
    pub(crate) fn say(
        &mut self,
        alloc: Global,
        at: u64,
        text: &[u8],
        size: usize,
    ) -> Result<(), Fail>
        requires size { 0 < size }
    {
        let moment = moment_after(at)?;
        for piece in text.chunks(size) {
            self.push(Said::Piece(Blob::of(alloc, piece)?), moment)?;
        }
        Ok(())
    }
}

/// Runs the server over the volume, for a client that plays the script.
pub(crate) fn play(
    rt: &(impl Threads + Wait + Sync),
    alloc: Global,
    script: Script,
    vol: MemVol,
) -> Result<Outcome, Fail> {
    let Script { said, moments } = script;
    let clock = MemClock::new(moments, moment_after(0)?);
    let vols = vec![in alloc; vol]?;
    run_once(rt, alloc, &["pipe"], door_of(alloc, said)?, clock, vols)
}
