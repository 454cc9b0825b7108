//! A volume in memory that holds its syncs.

ghost use Rattle.std.specs.Prelude.{◌≡◌, ◌+◌, ◌≤◌, ◌^◌, ℕ, length, take, drop, IfOk, OnOk, OnErr, IsErr};
ghost use Rattle.vol_disk.specs.Images.{IsDurable};
ghost use Rattle.vol_disk.specs.Steps.{written, Torn, CutTo, Kept};
ghost use Rattle.vol_disk.specs.Does.{Does};
ghost use Rattle.vol_disk.specs.Growing.{IsGrown, IsRefused};
ghost use Rattle.vol_disk.specs.Disk.{IsLeftBelow};
ghost use Rattle.vol_disk.specs.Moments.{Quiet};
ghost use Rattle.js_base.specs.Causes.{HasCause};
ghost use Rattle.vol_disk.specs.declared.call.Deed.{Deed};

use crate::failed::Failed;
use crate::mem_vol::MemVol;
use crate::room::Room;
use crate::vol::Vol;
use std::alloc::Global;
use std::marker::Model;
use std::sync::Arc;
use std::sync::atomic::{AtomicBool, Ordering};
use std::thread::yield_now;

/// A volume in memory whose syncs of one file wait until a flag is set that it shares, but for a stated
/// number of turns at most, in each of which other threads may run. Contracts see it as the volume.
#[derive(Drop)]
pub struct HoldVol {
    vol: MemVol,
    held: u32,
    turns: u64,
    open: Arc<AtomicBool, Global>,
}

impl Model for HoldVol {
    ghost use Rattle.vol_disk.specs.MemVol.{VolState};

    ghost Value = { VolState };

    ghost view = { λ s. s.vol };
}

impl HoldVol {
    /// A volume whose syncs of the file wait for so many turns at most, until the flag is set.
    pub fn new(vol: MemVol, held: u32, turns: u64, open: Arc<AtomicBool, Global>) -> HoldVol
        ensures same { result ≡ vol }
    {
        HoldVol {
            vol,
            held,
            turns,
            open,
        }
    }

    /// The volume.
    pub fn vol(&self) -> &MemVol
        ensures same { result.now ≡ self.now }
    {
        &self.vol
    }

    /// Waits until the flag is set, for so many turns at most.
    fn hold(&self) {
        for _ in 0..self.turns {
            if self.open.load(Ordering::SeqCst) {
                return;
            }
            yield_now();
        }
    }
}

impl Vol for HoldVol {
    ghost use Rattle.vol_disk.specs.MemVol.{disk_of, IsCall, IsGrowCall};
    ghost use Rattle.vol_disk.specs.Laws.{clocked, honest};

    ghost disk = { disk_of };

    ghost told = { Unit {0} };

    ghost faults = { λ vol. vol.faults };

    ghost refusals = { λ vol. vol.refusals };

    ghost clocked = { λ vol. clocked vol.start vol.calls };

    ghost honest = { λ told vol. honest vol.start vol.calls };

    fn len(&mut self, file: u32) -> Result<u64, Failed>
        ensures call { IsCall self.old self.new result file Deed.Len }
        ensures value { IfOk result (λ len. len ≡ length ((disk_of self.old).seen file)) }
        ensures seen { (disk_of self.new).seen file ≡ (disk_of self.old).seen file }
        ensures does { Does file Kept (disk_of self.old) (disk_of self.new) }
        ensures cause { HasCause self.old.faults self.new.faults (IsErr result) }
        ensures refusals { self.old.refusals ≤ self.new.refusals }
        ensures later { (disk_of self.old).moment ≤ (disk_of self.new).moment }
    {
        self.vol.len(file)
    }

    fn read_at(&mut self, file: u32, at: u64, into: &mut [u8]) -> Result<(), Failed>
        requires within { at + length into.old ≤ length ((disk_of self.old).seen file) }
        ensures call { IsCall self.old self.new result file (Deed.Read at (length into.old)) }
        ensures value { OnOk result (into.new ≡ take (length into.old) (drop at ((disk_of self.old).seen file))) }
        ensures seen { (disk_of self.new).seen file ≡ (disk_of self.old).seen file }
        ensures does { Does file Kept (disk_of self.old) (disk_of self.new) }
        ensures cause { HasCause self.old.faults self.new.faults (IsErr result) }
        ensures refusals { self.old.refusals ≤ self.new.refusals }
        ensures later { (disk_of self.old).moment ≤ (disk_of self.new).moment }
    {
        self.vol.read_at(file, at, into)
    }

    fn write_at(&mut self, file: u32, at: u64, bytes: &[u8]) -> Result<(), Failed>
        requires within { at ≤ length ((disk_of self.old).seen file) }
        ensures call { IsCall self.old self.new result file (Deed.Write at bytes.now) }
        ensures seen { OnOk result ((disk_of self.new).seen file ≡ written at bytes.now ((disk_of self.old).seen file)) }
        ensures torn { OnErr result (Torn at (length bytes.now) ((disk_of self.old).seen file) ((disk_of self.new).seen file)) }
        ensures does { Does file (Torn at (length bytes.now)) (disk_of self.old) (disk_of self.new) }
        ensures cause { HasCause self.old.faults self.new.faults (IsErr result) }
        ensures refusals { self.old.refusals ≤ self.new.refusals }
        ensures later { (disk_of self.old).moment ≤ (disk_of self.new).moment }
    {
        self.vol.write_at(file, at, bytes)
    }

    fn grow(&mut self, file: u32, count: u32) -> Result<Room, Failed>
        requires few { count ≤ 2 ^ 20 }
        ensures call { IsGrowCall self.old self.new result file count }
        ensures grown { IfOk result (λ room. IsGrown room count ((disk_of self.old).seen file) ((disk_of self.new).seen file)) }
        ensures torn { OnErr result (Torn (length ((disk_of self.old).seen file)) count ((disk_of self.old).seen file) ((disk_of self.new).seen file)) }
        ensures does { Does file (Torn (length ((disk_of self.old).seen file)) count) (disk_of self.old) (disk_of self.new) }
        ensures cause { HasCause self.old.faults self.new.faults (IsErr result) }
        ensures refused { HasCause self.old.refusals self.new.refusals (IsRefused result) }
        ensures later { (disk_of self.old).moment ≤ (disk_of self.new).moment }
    {
        self.vol.grow(file, count)
    }

    fn chunk(&self) -> u32 {
        self.vol.chunk()
    }

    fn cut(&mut self, file: u32, to: u64) -> Result<(), Failed>
        requires within { to ≤ length ((disk_of self.old).seen file) }
        ensures call { IsCall self.old self.new result file (Deed.Cut to) }
        ensures seen { OnOk result ((disk_of self.new).seen file ≡ take to ((disk_of self.old).seen file)) }
        ensures torn { OnErr result (CutTo to ((disk_of self.old).seen file) ((disk_of self.new).seen file)) }
        ensures does { Does file (CutTo to) (disk_of self.old) (disk_of self.new) }
        ensures cause { HasCause self.old.faults self.new.faults (IsErr result) }
        ensures refusals { self.old.refusals ≤ self.new.refusals }
        ensures later { (disk_of self.old).moment ≤ (disk_of self.new).moment }
    {
        self.vol.cut(file, to)
    }

    /// Syncs the file, the held one only after it waited.
    fn sync(&mut self, file: u32) -> Result<(), Failed>
        ensures call { IsCall self.old self.new result file Deed.Sync }
        ensures durable { OnOk result (IsDurable (disk_of self.new) file) }
        ensures seen { (disk_of self.new).seen file ≡ (disk_of self.old).seen file }
        ensures does { Does file Kept (disk_of self.old) (disk_of self.new) }
        ensures cause { HasCause self.old.faults self.new.faults (IsErr result) }
        ensures refusals { self.old.refusals ≤ self.new.refusals }
        ensures later { (disk_of self.old).moment ≤ (disk_of self.new).moment }
    {
        if file == self.held {
            self.hold();
        }
        self.vol.sync(file)
    }

    fn files_end(&mut self) -> Result<u64, Failed>
        ensures call { IsCall self.old self.new result 0 Deed.End }
        ensures left { IfOk result (λ end. IsLeftBelow end (disk_of self.new)) }
        ensures quiet { Quiet (disk_of self.old) (disk_of self.new) }
        ensures cause { HasCause self.old.faults self.new.faults (IsErr result) }
        ensures refusals { self.old.refusals ≤ self.new.refusals }
        ensures later { (disk_of self.old).moment ≤ (disk_of self.new).moment }
    {
        self.vol.files_end()
    }

    /// It tells nobody.
    fn tell_stopped(&self, _stream: &[u8]) {}

    fn faults(&self) -> u64 {
        self.vol.faults()
    }

    fn refusals(&self) -> u64 {
        self.vol.refusals()
    }
}
