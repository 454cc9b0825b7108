//! The files of a volume in memory, and the calls on them.

ghost use Rattle.std.specs.Prelude.{◌≡◌, ◌<◌, ◌≤◌, [], ◌∷◌, ◌++◌, ℕ, false, None, Some, length, unwrap_or, IfOk, OnOk, OnErr, vec_len, vec_capacity};
ghost use Rattle.std.specs.BTreeMap.{get, is_at};
ghost use Rattle.std.specs.Ordering.{nat_cmp};
ghost use Rattle.vol_disk.specs.FileState.{at_rest};
ghost use Rattle.vol_disk.specs.Replay.{bytes_in, after_call};
ghost use Rattle.vol_disk.specs.MemDisk.{AreLeft};
ghost use Rattle.vol_disk.specs.Calls.{CanDo};
ghost use Rattle.vol_disk.specs.Held.{held_file, with_one, state_in, ArePicked};

use crate::call::{Call, Deed};
use crate::drafts::pick_of_file;
use crate::mem_file::MemFile;
use js_base::{List, NoMemory};
use std::alloc::Global;
use std::collections::BTreeMap;
use std::marker::Model;

/// Files in memory: the bytes that they held at first, the calls since then, and what those made of the files.
#[derive(Drop, Debug)]
pub struct Held {
    alloc: Global,
    start: List<(u32, List<u8>)>,
    calls: Vec<Call>,
    /// The files that held bytes at first or were written since then, by number.
    files: BTreeMap<u32, MemFile>,
}

impl Model for Held {
    ghost use Rattle.vol_disk.specs.Held.{HeldState, IsReplayed};

    ghost Value = { HeldState };

    ghost view = { λ s. record { start = s.start; calls = s.calls.items } };

    ghost invariant = { λ s. IsReplayed s.files.entries s.start s.calls.items };
}

/// Does to a file what a call does to an empty one that is not held, and holds it. An `Err` changes nothing.
fn write_first(
    alloc: Global,
    files: &mut BTreeMap<u32, MemFile>,
    call: &Call,
) -> Result<(), NoMemory>
    requires absent { get nat_cmp files.old call.now.file ≡ None }
    requires can { CanDo call.now.deed (at_rest []) }
    ensures ok { OnOk result ((file : ℕ)
        → state_in files.new.entries file ≡ after_call call.now file (state_in files.old.entries file)) }
    ensures err { OnErr result (files.new.entries ≡ files.old.entries) }
{
    let mut file = MemFile::empty(alloc);
    file.apply(alloc, &call.deed, call.is_done)?;
    files.insert(call.file, file)?;
    Ok(())
}

/// Does to a file that is not held what a call does. Only a write, or zeros, need that it is held. An `Err` changes nothing.
fn apply_first(
    alloc: Global,
    files: &mut BTreeMap<u32, MemFile>,
    call: &Call,
) -> Result<(), NoMemory>
    requires absent { get nat_cmp files.old call.now.file ≡ None }
    requires can { CanDo call.now.deed (at_rest []) }
    ensures ok { OnOk result ((file : ℕ)
        → state_in files.new.entries file ≡ after_call call.now file (state_in files.old.entries file)) }
    ensures err { OnErr result (files.new.entries ≡ files.old.entries) }
{
    match &call.deed {
        Deed::Write { at: _, bytes: _ } | Deed::Grow { count: _ } => write_first(
            alloc, files, call,
        ),
        Deed::Len | Deed::Read { at: _, count: _ } | Deed::Cut { to: _ } | Deed::Sync | Deed::End =>
            Ok(()),
    }
}

/// Does to a file what a call does. An `Err` leaves each file as it was.
fn apply(alloc: Global, files: &mut BTreeMap<u32, MemFile>, call: &Call) -> Result<(), NoMemory>
    requires can { CanDo call.now.deed (state_in files.old.entries call.now.file) }
    ensures ok { OnOk result ((file : ℕ)
        → state_in files.new.entries file ≡ after_call call.now file (state_in files.old.entries file)) }
    ensures err { OnErr result ((file : ℕ) → state_in files.new.entries file ≡ state_in files.old.entries file) }
{
    match files.get_mut(&call.file) {
        Some(file) => file.apply(alloc, &call.deed, call.is_done),
        None => apply_first(alloc, files, call),
    }
}

/// Keeps a call where there is room for it.
fn keep_call(calls: &mut Vec<Call>, call: Call)
    requires room { vec_len calls.old < vec_capacity calls.old }
    ensures kept { calls.new.items ≡ calls.old.items ++ call ∷ [] }
{
    match calls.push(call) {
        Ok(()) => {}
        Err(_) => unreachable!(),
    }
}

/// For each file bytes that a crash may leave of it, as the number picks them.
fn choose(
    alloc: Global,
    files: &BTreeMap<u32, MemFile>,
    calls: &[Call],
    pick: u64,
) -> Result<List<(u32, List<u8>)>, NoMemory>
    ensures picked { IfOk result (λ start. ArePicked pick files.now.entries start) }
{
    let mut drawn = pick;
    let mut start = List::new(alloc);
    for (number, file) in files {
        let pick = pick_of_file(pick, &mut drawn);
        let bytes = file.image(alloc, *number, calls, pick)?;
        start.push((*number, List::from_vec(bytes)))?;
    }
    Ok(start)
}

/// Holds these bytes at rest, if nothing is held under the number.
fn put_at_rest(
    alloc: Global,
    files: &mut BTreeMap<u32, MemFile>,
    number: u32,
    bytes: &[u8],
) -> Result<(), NoMemory>
    ensures here { OnOk result (get nat_cmp files.new number
        ≡ Some (unwrap_or (get nat_cmp files.old number) (at_rest bytes.now))) }
    ensures there { OnOk result ((other : ℕ) → is_at (nat_cmp number) other ≡ false
        → get nat_cmp files.new other ≡ get nat_cmp files.old other) }
{
    if files.contains_key(&number) {
        return Ok(());
    }
    files.insert(number, MemFile::at_rest(alloc, bytes)?)?;
    Ok(())
}

/// Files that hold these bytes at rest.
fn rest(alloc: Global, start: &[(u32, List<u8>)]) -> Result<BTreeMap<u32, MemFile>, NoMemory>
    ensures rest { IfOk result (λ files. (file : ℕ) → state_in files.entries file ≡ at_rest (bytes_in start.now file)) }
{
    let mut files = BTreeMap::new(alloc);
    for (number, bytes) in start {
        put_at_rest(alloc, &mut files, *number, bytes.as_slice())?;
    }
    Ok(files)
}

impl Held {
    /// No file, on which no call was made.
    pub fn empty(alloc: Global) -> Held
        ensures fresh { result ≡ record { start = []; calls = [] } }
    {
        Held {
            alloc,
            start: List::new(alloc),
            calls: Vec::new(alloc),
            files: BTreeMap::new(alloc),
        }
    }

    /// How many calls were made.
    pub fn made(&self) -> u64
        ensures value { result ≡ length self.now.calls }
    {
        self.calls.len() as u64
    }

    /// The calls that were made, in their order.
    pub fn calls(&self) -> &[Call]
        ensures value { result.now ≡ self.now.calls }
    {
        self.calls.as_slice()
    }

    /// What a read of a file gives.
    pub fn bytes(&self, file: u32) -> &[u8]
        ensures value { result.now ≡ (held_file self.now file).bytes }
    {
        match self.files.get(&file) {
            Some(held) => held.bytes(),
            None => &[],
        }
    }

    /// How many bytes the files have together.
    pub fn total(&self) -> u64 {
        let mut total: u64 = 0;
        for file in self.files.values() {
            total = total.saturating_add(file.bytes().len() as u64);
        }
        total
    }

    /// A number behind that of every file that is held.
    pub fn end(&self) -> u64
        ensures rest { (file : ℕ) → result ≤ file → held_file self.now file ≡ at_rest [] }
    {
        match self.files.last_key_value() {
            Some((last, _)) => u64::from(*last) + 1,
            None => 0,
        }
    }

    /// Files that hold at rest what a crash now may leave of these, as the number picks it: at 0 what each was
    /// at its last sync, and at 1 what it reads as.
    pub fn image(&self, pick: u64) -> Result<Held, NoMemory>
        ensures image { IfOk result (λ image. AreLeft self.now.start self.now.calls (bytes_in image.start)) }
        ensures as_synced { pick ≡ 0 → IfOk result (λ image. (file : ℕ) → bytes_in image.start file ≡ (held_file self.now file).synced) }
        ensures as_read { pick ≡ 1 → IfOk result (λ image. (file : ℕ) → bytes_in image.start file ≡ (held_file self.now file).bytes) }
        ensures fresh { IfOk result (λ image. image.calls ≡ []) }
    {
        let start = choose(self.alloc, &self.files, self.calls.as_slice(), pick)?;
        let files = rest(self.alloc, start.as_slice())?;
        Ok(Held {
            alloc: self.alloc,
            start,
            calls: Vec::new(self.alloc),
            files,
        })
    }

    /// Makes a call, and keeps it. An `Err` leaves all as it was.
    pub fn make(&mut self, call: Call) -> Result<(), NoMemory>
        requires can { CanDo call.deed (held_file self.old call.file) }
        ensures ok { OnOk result (self.new ≡ with_one self.old call) }
        ensures err { OnErr result (self.new ≡ self.old) }
    {
        if self.calls.reserve(1).is_err() {
            return Err(NoMemory);
        }
        match apply(self.alloc, &mut self.files, &call) {
            Ok(()) => {}
            Err(NoMemory) => return Err(NoMemory),
        }
        keep_call(&mut self.calls, call);
        Ok(())
    }
}
