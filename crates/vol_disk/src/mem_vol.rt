//! A volume in memory.

ghost use Rattle.std.specs.Prelude.{◌≡◌, ◌+◌, ◌≤◌, ◌^◌, [], ℕ, None, true, false, length, take, drop, IfOk, OnOk, OnErr, IsErr};
ghost use Rattle.vol_disk.specs.Images.{IsImage, IsDurable, IsAllDurable};
ghost use Rattle.vol_disk.specs.Steps.{written, Torn, CutTo, Kept};
ghost use Rattle.vol_disk.specs.Does.{Does};
ghost use Rattle.vol_disk.specs.Growing.{IsGrown, IsRefused};
ghost use Rattle.vol_disk.specs.Disk.{IsLeftBelow};
ghost use Rattle.vol_disk.specs.Moments.{Quiet};
ghost use Rattle.vol_disk.specs.Calls.{CanDo};
ghost use Rattle.js_base.specs.Causes.{HasCause};
ghost use Rattle.vol_disk.specs.MemVol.{is_past};

use crate::call::{Call, Deed};
use crate::failed::Failed;
use crate::held::Held;
use crate::room::Room;
use crate::vol::Vol;
use js_base::{List, NoMemory};
use std::alloc::Global;
use std::marker::Model;
use std::sync::Arc;
use std::sync::atomic::{AtomicU64, Ordering};

/// A volume in memory, with every image that a crash may leave of it. Calls are numbered from 0, and those
/// with stated numbers fail, and all from a stop on, the one at the stop too. A call that finds no memory
/// fails as well; it changes nothing and has no number. A write or a cut that fails leaves what is read as
/// it was, but an image may have any part of it.
///
/// With a budget it refuses room for more bytes than that, which all its files have together. Files grow by any number of bytes, unless a test asks for a chunk.
///
/// It keeps the calls that were made on it, in their order, with every byte that was written, and each file
/// twice, as it reads and as it was last synced: a sync takes the time of its file. A file never written
/// takes no memory.
#[derive(Drop, Debug)]
pub struct MemVol {
    alloc: Global,
    held: Held,
    failing: List<u64>,
    stop: Option<u64>,
    budget: Option<Arc<AtomicU64, Global>>,
    chunk: u32,
    faults: u64,
    refusals: u64,
}

impl Model for MemVol {
    ghost use Rattle.std.specs.Prelude.{is_some};
    ghost use Rattle.vol_disk.specs.MemVol.{VolState};

    ghost Value = { VolState };

    ghost view = { λ s. record {
      start = s.held.start;
      calls = s.held.calls;
      failing = s.failing;
      stop = s.stop;
      is_bounded = is_some s.budget;
      faults = s.faults;
      refusals = s.refusals;
    } };
}

/// Whether the stop has come.
fn is_past(stop: Option<u64>, number: u64) -> bool
    ensures value { result ≡ is_past stop number }
{
    match stop {
        Some(stop) => stop <= number,
        None => false,
    }
}

/// A list of these bytes.
fn copied(alloc: Global, bytes: &[u8]) -> Result<List<u8>, NoMemory>
    ensures ok { IfOk result (λ copy. copy ≡ bytes.now) }
{
    match Vec::from_slice(alloc, bytes) {
        Ok(copy) => Ok(List::from_vec(copy)),
        Err(_) => Err(NoMemory),
    }
}

/// The bytes of a range.
fn read_range(from: &[u8], at: u64, into: &mut [u8])
    requires within { at + length into.old ≤ length from.now }
    ensures value { into.new ≡ take (length into.old) (drop at from.now) }
{
    let at = at as usize;
    into.copy_from_slice(&from[at..at + into.len()]);
}

impl MemVol {
    ghost use Rattle.vol_disk.specs.MemVol.{vol_of, disk_of, file_of, next_fails, with_fault, with_refusal, IsCall, IsGrowCall};

    /// A volume of empty files, which fails only for want of memory.
    pub fn new(alloc: Global) -> MemVol
        ensures fresh { result ≡ vol_of [] [] None }
    {
        MemVol::failing(alloc, List::new(alloc), None)
    }

    /// A volume of empty files. Its calls with these numbers fail, and all from the stop on.
    pub fn failing(alloc: Global, failing: List<u64>, stop: Option<u64>) -> MemVol
        ensures fresh { result ≡ vol_of [] failing stop }
    {
        MemVol {
            alloc,
            held: Held::empty(alloc),
            failing,
            stop,
            budget: None,
            chunk: 1,
            faults: 0,
            refusals: 0,
        }
    }

    /// The calls that were made on it.
    pub fn calls(&self) -> &[Call]
        ensures value { result.now ≡ self.now.calls }
    {
        self.held.calls()
    }

    /// The same volume, of which the calls with these numbers fail, and all from the stop on.
    pub fn with_failures(self, failing: List<u64>, stop: Option<u64>) -> MemVol
        ensures planned { result ≡ record self { failing = failing; stop = stop } }
    {
        let mut vol = self;
        vol.failing = failing;
        vol.stop = stop;
        vol
    }

    /// The same volume, with a budget: it refuses room where all its files together would have more bytes than the number that is shared. That may change at any
    /// time.
    pub fn with_budget(self, budget: Arc<AtomicU64, Global>) -> MemVol
        ensures bounded { result ≡ record self { is_bounded = true } }
    {
        let mut vol = self;
        vol.budget = Some(budget);
        vol
    }

    /// The same volume, whose files had better grow by so many bytes at a time, from 1 to 2^20.
    pub fn with_chunk(self, chunk: u32) -> MemVol
        ensures same { result ≡ self }
    {
        let mut vol = self;
        vol.chunk = chunk;
        vol
    }

    /// A volume that reads as one of the images that a crash now may leave, all of it on its disk. At 0 each
    /// file is as it was at its last sync, at 1 as it reads now, and at any other pick it is chosen for each
    /// file and each of its calls since the last sync how much of them reached the disk. It fails only for
    /// want of memory.
    pub fn image(&self, pick: u64) -> Result<MemVol, NoMemory>
        ensures image { IfOk result (λ vol. IsImage (disk_of self.now) (disk_of vol).seen) }
        ensures as_synced { pick ≡ 0 → IfOk result (λ vol. (file : ℕ) → (disk_of vol).seen file ≡ (file_of self.now file).synced) }
        ensures as_read { pick ≡ 1 → IfOk result (λ vol. (file : ℕ) → (disk_of vol).seen file ≡ (disk_of self.now).seen file) }
        ensures durable { IfOk result (λ vol. IsAllDurable (disk_of vol)) }
        ensures fresh { IfOk result (λ vol. vol ≡ vol_of vol.start [] None) }
    {
        let held = self.held.image(pick)?;
        Ok(MemVol {
            alloc: self.alloc,
            held,
            failing: List::new(self.alloc),
            stop: None,
            budget: None,
            chunk: self.chunk,
            faults: 0,
            refusals: 0,
        })
    }

    /// What a read of a file gives.
    fn bytes(&self, file: u32) -> &[u8]
        ensures value { result.now ≡ (file_of self.now file).bytes }
    {
        self.held.bytes(file)
    }

    /// Whether the next call is to fail.
    fn next_fails(&self) -> bool
        ensures value { result ≡ next_fails self.now }
    {
        let number = self.held.made();
        self.failing.as_slice().contains(&number) || is_past(self.stop, number)
    }

    /// A call failed.
    fn fail(&mut self)
        ensures counted { self.new ≡ with_fault self.old }
        ensures later { self.old.faults ≤ self.new.faults }
    {
        self.faults = self.faults.saturating_add(1);
    }

    /// Whether there is no room for so many bytes more.
    fn lacks_room(&self, count: u32) -> bool
        ensures bounded { result ≡ true → self.now.is_bounded ≡ true }
    {
        match &self.budget {
            Some(budget) => {
                let wanted = self.held.total().saturating_add(u64::from(count));
                budget.load(Ordering::SeqCst) < wanted
            }
            None => false,
        }
    }

    /// There was no room.
    fn refuse(&mut self)
        ensures counted { self.new ≡ with_refusal self.old }
        ensures later { self.old.refusals ≤ self.new.refusals }
    {
        self.refusals = self.refusals.saturating_add(1);
    }

    /// Makes a call for room as one that is not done, unless it fails.
    fn refused(&mut self, file: u32, count: u32) -> Result<Room, Failed>
        requires bounded { self.old.is_bounded ≡ true }
        ensures call { IsGrowCall self.old self.new result file count }
        ensures cause { HasCause self.old.faults self.new.faults (IsErr result) }
        ensures refused { HasCause self.old.refusals self.new.refusals (IsRefused result) }
        ensures later { (disk_of self.old).moment ≤ (disk_of self.new).moment }
    {
        let fails = self.next_fails();
        let made = self.held.make(Call {
            file,
            deed: Deed::Grow {
                count: u64::from(count),
            },
            is_done: false,
        });
        match made {
            Ok(()) if !fails => {
                self.refuse();
                Ok(Room::Refused)
            }
            _ => {
                self.fail();
                Err(Failed)
            }
        }
    }

    /// Makes a call, or fails at some part of it.
    fn call(&mut self, file: u32, deed: Deed) -> Result<(), Failed>
        requires can { CanDo deed (file_of self.old file) }
        ensures call { IsCall self.old self.new result file deed }
        ensures cause { HasCause self.old.faults self.new.faults (IsErr result) }
        ensures refusals { self.old.refusals ≤ self.new.refusals }
        ensures later { (disk_of self.old).moment ≤ (disk_of self.new).moment }
    {
        let fails = self.next_fails();
        let made = self.held.make(Call {
            file,
            deed,
            is_done: !fails,
        });
        match made {
            Ok(()) if !fails => Ok(()),
            _ => {
                self.fail();
                Err(Failed)
            }
        }
    }

    /// Makes a call for room.
    fn room(&mut self, file: u32, count: u32) -> Result<Room, Failed>
        ensures call { IsGrowCall self.old self.new result file count }
        ensures cause { HasCause self.old.faults self.new.faults (IsErr result) }
        ensures refused { HasCause self.old.refusals self.new.refusals (IsRefused result) }
        ensures later { (disk_of self.old).moment ≤ (disk_of self.new).moment }
    {
        if self.lacks_room(count) {
            return self.refused(file, count);
        }
        self.call(
            file,
            Deed::Grow {
                count: u64::from(count),
            },
        )?;
        Ok(Room::Made)
    }

    /// Writes, or fails at some part of it.
    fn write(&mut self, file: u32, at: u64, bytes: &[u8]) -> Result<(), Failed>
        requires within { at ≤ length (file_of self.old file).bytes }
        ensures call { IsCall self.old self.new result file (Deed.Write at bytes.now) }
        ensures cause { HasCause self.old.faults self.new.faults (IsErr result) }
        ensures refusals { self.old.refusals ≤ self.new.refusals }
        ensures later { (disk_of self.old).moment ≤ (disk_of self.new).moment }
    {
        match copied(self.alloc, bytes) {
            Ok(bytes) => self.call(file, Deed::Write { at, bytes }),
            Err(NoMemory) => {
                self.fail();
                Err(Failed)
            }
        }
    }
}

impl Vol for MemVol {
    ghost use Rattle.vol_disk.specs.MemVol.{disk_of, IsCall, IsGrowCall};
    ghost use Rattle.vol_disk.specs.Laws.{clocked, honest};

    ghost disk = { disk_of };

    ghost told = { Unit {0} };

    ghost faults = { λ vol. vol.faults };

    ghost refusals = { λ vol. vol.refusals };

    ghost clocked = { λ vol. clocked vol.start vol.calls };

    ghost honest = { λ told vol. honest vol.start vol.calls };

    fn len(&mut self, file: u32) -> Result<u64, Failed>
        ensures call { IsCall self.old self.new result file Deed.Len }
        ensures value { IfOk result (λ len. len ≡ length ((disk_of self.old).seen file)) }
        ensures seen { (disk_of self.new).seen file ≡ (disk_of self.old).seen file }
        ensures does { Does file Kept (disk_of self.old) (disk_of self.new) }
        ensures cause { HasCause self.old.faults self.new.faults (IsErr result) }
        ensures refusals { self.old.refusals ≤ self.new.refusals }
        ensures later { (disk_of self.old).moment ≤ (disk_of self.new).moment }
    {
        match self.call(file, Deed::Len) {
            Ok(()) => Ok(self.bytes(file).len() as u64),
            Err(failed) => Err(failed),
        }
    }

    fn read_at(&mut self, file: u32, at: u64, into: &mut [u8]) -> Result<(), Failed>
        requires within { at + length into.old ≤ length ((disk_of self.old).seen file) }
        ensures call { IsCall self.old self.new result file (Deed.Read at (length into.old)) }
        ensures value { OnOk result (into.new ≡ take (length into.old) (drop at ((disk_of self.old).seen file))) }
        ensures seen { (disk_of self.new).seen file ≡ (disk_of self.old).seen file }
        ensures does { Does file Kept (disk_of self.old) (disk_of self.new) }
        ensures cause { HasCause self.old.faults self.new.faults (IsErr result) }
        ensures refusals { self.old.refusals ≤ self.new.refusals }
        ensures later { (disk_of self.old).moment ≤ (disk_of self.new).moment }
    {
        let count = into.len() as u64;
        match self.call(file, Deed::Read { at, count }) {
            Ok(()) => {
                read_range(self.bytes(file), at, into);
                Ok(())
            }
            Err(failed) => Err(failed),
        }
    }

    fn write_at(&mut self, file: u32, at: u64, bytes: &[u8]) -> Result<(), Failed>
        requires within { at ≤ length ((disk_of self.old).seen file) }
        ensures call { IsCall self.old self.new result file (Deed.Write at bytes.now) }
        ensures seen { OnOk result ((disk_of self.new).seen file ≡ written at bytes.now ((disk_of self.old).seen file)) }
        ensures torn { OnErr result (Torn at (length bytes.now) ((disk_of self.old).seen file) ((disk_of self.new).seen file)) }
        ensures does { Does file (Torn at (length bytes.now)) (disk_of self.old) (disk_of self.new) }
        ensures cause { HasCause self.old.faults self.new.faults (IsErr result) }
        ensures refusals { self.old.refusals ≤ self.new.refusals }
        ensures later { (disk_of self.old).moment ≤ (disk_of self.new).moment }
    {
        self.write(file, at, bytes)
    }

    fn grow(&mut self, file: u32, count: u32) -> Result<Room, Failed>
        requires few { count ≤ 2 ^ 20 }
        ensures call { IsGrowCall self.old self.new result file count }
        ensures grown { IfOk result (λ room. IsGrown room count ((disk_of self.old).seen file) ((disk_of self.new).seen file)) }
        ensures torn { OnErr result (Torn (length ((disk_of self.old).seen file)) count ((disk_of self.old).seen file) ((disk_of self.new).seen file)) }
        ensures does { Does file (Torn (length ((disk_of self.old).seen file)) count) (disk_of self.old) (disk_of self.new) }
        ensures cause { HasCause self.old.faults self.new.faults (IsErr result) }
        ensures refused { HasCause self.old.refusals self.new.refusals (IsRefused result) }
        ensures later { (disk_of self.old).moment ≤ (disk_of self.new).moment }
    {
        self.room(file, count)
    }

    fn chunk(&self) -> u32 {
        self.chunk.clamp(1, 1 << 20)
    }

    fn cut(&mut self, file: u32, to: u64) -> Result<(), Failed>
        requires within { to ≤ length ((disk_of self.old).seen file) }
        ensures call { IsCall self.old self.new result file (Deed.Cut to) }
        ensures seen { OnOk result ((disk_of self.new).seen file ≡ take to ((disk_of self.old).seen file)) }
        ensures torn { OnErr result (CutTo to ((disk_of self.old).seen file) ((disk_of self.new).seen file)) }
        ensures does { Does file (CutTo to) (disk_of self.old) (disk_of self.new) }
        ensures cause { HasCause self.old.faults self.new.faults (IsErr result) }
        ensures refusals { self.old.refusals ≤ self.new.refusals }
        ensures later { (disk_of self.old).moment ≤ (disk_of self.new).moment }
    {
        self.call(file, Deed::Cut { to })
    }

    fn sync(&mut self, file: u32) -> Result<(), Failed>
        ensures call { IsCall self.old self.new result file Deed.Sync }
        ensures durable { OnOk result (IsDurable (disk_of self.new) file) }
        ensures seen { (disk_of self.new).seen file ≡ (disk_of self.old).seen file }
        ensures does { Does file Kept (disk_of self.old) (disk_of self.new) }
        ensures cause { HasCause self.old.faults self.new.faults (IsErr result) }
        ensures refusals { self.old.refusals ≤ self.new.refusals }
        ensures later { (disk_of self.old).moment ≤ (disk_of self.new).moment }
    {
        self.call(file, Deed::Sync)
    }

    fn files_end(&mut self) -> Result<u64, Failed>
        ensures call { IsCall self.old self.new result 0 Deed.End }
        ensures left { IfOk result (λ end. IsLeftBelow end (disk_of self.new)) }
        ensures quiet { Quiet (disk_of self.old) (disk_of self.new) }
        ensures cause { HasCause self.old.faults self.new.faults (IsErr result) }
        ensures refusals { self.old.refusals ≤ self.new.refusals }
        ensures later { (disk_of self.old).moment ≤ (disk_of self.new).moment }
    {
        match self.call(0, Deed::End) {
            Ok(()) => Ok(self.held.end()),
            Err(failed) => Err(failed),
        }
    }

    /// It tells nobody.
    fn tell_stopped(&self, _stream: &[u8]) {}

    fn faults(&self) -> u64 {
        self.faults
    }

    fn refusals(&self) -> u64 {
        self.refusals
    }
}
