//! A volume in memory of which nothing is told, so that records may be committed to it of which nobody has shown that they fit.

ghost use Rattle.std.specs.Prelude.{◌≡◌, ◌+◌, nat_le, Ok, IsErr};
ghost use Rattle.js_base.specs.Causes.{HasCause};
ghost use Rattle.vol_disk.specs.Growing.{IsRefused};

use js_base::{List, NoMemory};
use std::alloc::Global;
use std::marker::Model;
use vol_disk::{Failed, MemVol, Room, Vol};

/// A volume in memory, which counts its own faults and refusals. A read, a write or a cut past the end fails.
#[derive(Drop)]
pub struct Blind {
    vol: MemVol,
    faults: u64,
    refusals: u64,
}

impl Model for Blind {
    ghost use Rattle.vol_disk.specs.Untold.{Counts};

    ghost Value = { Counts };

    ghost view = { λ s. record { faults = s.faults; refusals = s.refusals } };
}

/// Whether so many bytes from an offset on lie in a file of this length.
fn lies_within(at: u64, count: usize, len: u64) -> bool
    ensures value { result ≡ nat_le (at + count) len }
{
    match at.checked_add(count as u64) {
        Some(end) => end <= len,
        None => false,
    }
}

/// Reads a range, or fails where it goes past the end.
fn read_within(vol: &mut MemVol, file: u32, at: u64, into: &mut [u8]) -> Result<(), Failed> {
    let len = vol.len(file)?;
    if !lies_within(at, into.len(), len) {
        return Err(Failed);
    }
    vol.read_at(file, at, into)
}

/// Writes, or fails where the write ends past the end.
fn write_within(vol: &mut MemVol, file: u32, at: u64, bytes: &[u8]) -> Result<(), Failed> {
    let len = vol.len(file)?;
    if !lies_within(at, bytes.len(), len) {
        return Err(Failed);
    }
    vol.write_at(file, at, bytes)
}

/// Cuts the file, or fails where it is shorter.
fn cut_within(vol: &mut MemVol, file: u32, to: u64) -> Result<(), Failed> {
    let len = vol.len(file)?;
    if to > len {
        return Err(Failed);
    }
    vol.cut(file, to)
}

impl Blind {
    /// The volume, of which the calls with these numbers fail, and all from the stop on, counted from now. `NoMemory` is want of memory.
    pub fn over(
        alloc: Global,
        vol: MemVol,
        failing: &[u64],
        stop: Option<u64>,
    ) -> Result<Blind, NoMemory> {
        let made = vol.calls().len() as u64;
        let mut numbers = List::new(alloc);
        for number in failing {
            numbers.push(made.saturating_add(*number))?;
        }
        let stop = stop.map(|number| made.saturating_add(number));
        Ok(Blind {
            vol: vol.with_failures(numbers, stop),
            faults: 0,
            refusals: 0,
        })
    }

    /// The volume in memory.
    pub fn vol(&self) -> &MemVol {
        &self.vol
    }

    /// The volume in memory.
    pub fn into_vol(self) -> MemVol {
        self.vol
    }

    /// The answer of a call, which is counted if it failed.
    fn counted<T: Drop>(&mut self, answer: Result<T, Failed>) -> Result<T, Failed>
        ensures cause { HasCause self.old.faults self.new.faults (IsErr result) }
        ensures refusals { self.new.refusals ≡ self.old.refusals }
    {
        if answer.is_err() {
            self.faults = self.faults.saturating_add(1);
        }
        answer
    }

    /// The answer of a call for room, which is counted if there was none.
    fn counted_room(&mut self, room: Room) -> Room
        ensures faults { self.new.faults ≡ self.old.faults }
        ensures refused { HasCause self.old.refusals self.new.refusals (IsRefused (Ok result)) }
    {
        if room == Room::Refused {
            self.refusals = self.refusals.saturating_add(1);
        }
        room
    }
}

impl Vol for Blind {
    ghost use Rattle.vol_disk.specs.Untold.{untold, untold_clocked};

    ghost disk = { λ _. untold };

    ghost told = { ⊥ };

    ghost faults = { λ counts. counts.faults };

    ghost refusals = { λ counts. counts.refusals };

    ghost clocked = { λ _. untold_clocked };

    ghost honest = { λ told _. absurd told };

    fn len(&mut self, file: u32) -> Result<u64, Failed> {
        let len = self.vol.len(file);
        self.counted(len)
    }

    fn read_at(&mut self, file: u32, at: u64, into: &mut [u8]) -> Result<(), Failed> {
        let read = read_within(&mut self.vol, file, at, into);
        self.counted(read)
    }

    fn write_at(&mut self, file: u32, at: u64, bytes: &[u8]) -> Result<(), Failed> {
        let written = write_within(&mut self.vol, file, at, bytes);
        self.counted(written)
    }

    fn grow(&mut self, file: u32, count: u32) -> Result<Room, Failed> {
        let grown = self.vol.grow(file, count);
        let room = self.counted(grown)?;
        Ok(self.counted_room(room))
    }

    fn chunk(&self) -> u32 {
        self.vol.chunk()
    }

    fn cut(&mut self, file: u32, to: u64) -> Result<(), Failed> {
        let cut = cut_within(&mut self.vol, file, to);
        self.counted(cut)
    }

    fn sync(&mut self, file: u32) -> Result<(), Failed> {
        let synced = self.vol.sync(file);
        self.counted(synced)
    }

    fn files_end(&mut self) -> Result<u64, Failed> {
        let end = self.vol.files_end();
        self.counted(end)
    }

    /// It tells nobody.
    fn tell_stopped(&self, _stream: &[u8]) {}

    fn faults(&self) -> u64 {
        self.faults
    }

    fn refusals(&self) -> u64 {
        self.refusals
    }
}
