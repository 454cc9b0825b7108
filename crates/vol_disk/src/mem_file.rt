//! A file in memory.

ghost use Rattle.std.specs.Prelude.{◌≡◌, ◌⊎◌, ◌<◌, ◌≤◌, if◌then◌else◌, [], ◌∷◌, ◌++◌, false, length, slice_index, IfOk, OnOk, OnErr, vec_len, vec_capacity};
ghost use Rattle.vol_disk.specs.Images.{AreBytes};
ghost use Rattle.vol_disk.specs.Steps.{written};
ghost use Rattle.vol_disk.specs.Calls.{CanDo, after, zeros};
ghost use Rattle.vol_disk.specs.FileState.{at_rest};
ghost use Rattle.vol_disk.specs.Left.{IsLeft, is_written};
ghost use Rattle.vol_disk.specs.Held.{IsPicked};

use crate::call::{Call, Deed};
use crate::drafts::draft;
use crate::span::Span;
use js_base::NoMemory;
use std::alloc::Global;
use std::marker::Model;

/// A file between two syncs: what a read gives, and gave at the last sync, the least and the greatest length
/// that it had since then, and the ranges that were written since then.
#[derive(Drop, Debug)]
pub struct MemFile {
    bytes: Vec<u8>,
    synced: Vec<u8>,
    least: u64,
    greatest: u64,
    written: Vec<Span>,
}

impl Model for MemFile {
    ghost use Rattle.vol_disk.specs.FileState.{FileState};
    ghost use Rattle.vol_disk.specs.Left.{IsReached};

    ghost Value = { FileState };

    ghost view = { λ s. record {
      bytes = s.bytes.items;
      synced = s.synced.items;
      least = s.least;
      greatest = s.greatest;
      written = s.written.items;
    } };

    ghost invariant = { λ s. IsReached (record {
      bytes = s.bytes.items;
      synced = s.synced.items;
      least = s.least;
      greatest = s.greatest;
      written = s.written.items;
    }) };
}

/// Writes the bytes at an offset, over what is there and past the end. An `Err` leaves all as it was.
pub(crate) fn write_over(held: &mut Vec<u8>, at: usize, bytes: &[u8]) -> Result<(), NoMemory>
    requires within { at ≤ length held.old.items }
    ensures ok { OnOk result (held.new.items ≡ written at bytes.now held.old.items) }
    ensures err { OnErr result (held.new.items ≡ held.old.items) }
{
    let over = bytes.len().min(held.len() - at);
    match held.extend_from_slice(&bytes[over..]) {
        Ok(()) => {}
        Err(_) => return Err(NoMemory),
    }
    let all = held.as_mut_slice();
    all[at..at + over].copy_from_slice(&bytes[..over]);
    Ok(())
}

/// Writes the bytes so if they are to be written. An `Err` leaves all as it was.
fn write_if(held: &mut Vec<u8>, at: usize, bytes: &[u8], is_done: bool) -> Result<(), NoMemory>
    requires within { at ≤ length held.old.items }
    ensures ok { OnOk result (held.new.items ≡ (if is_done then written at bytes.now held.old.items else held.old.items)) }
    ensures err { OnErr result (held.new.items ≡ held.old.items) }
{
    if is_done {
        return write_over(held, at, bytes);
    }
    Ok(())
}

/// Keeps a range where there is room for it.
fn keep_span(spans: &mut Vec<Span>, span: Span)
    requires room { vec_len spans.old < vec_capacity spans.old }
    ensures kept { spans.new.items ≡ spans.old.items ++ span ∷ [] }
{
    match spans.push(span) {
        Ok(()) => {}
        Err(_) => unreachable!(),
    }
}

/// A copy of the bytes.
fn copy_of(alloc: Global, bytes: &[u8]) -> Result<Vec<u8>, NoMemory>
    ensures ok { IfOk result (λ copy. copy.items ≡ bytes.now) }
{
    match Vec::from_slice(alloc, bytes) {
        Ok(copy) => Ok(copy),
        Err(_) => Err(NoMemory),
    }
}

/// So many zeros.
pub(crate) fn zeros(alloc: Global, count: u64) -> Result<Vec<u8>, NoMemory>
    ensures ok { IfOk result (λ vec. vec.items ≡ zeros count) }
{
    match vec![in alloc; 0u8; count as usize] {
        Ok(zeros) => Ok(zeros),
        Err(_) => Err(NoMemory),
    }
}

impl MemFile {
    /// A file without bytes. It takes no memory.
    pub fn empty(alloc: Global) -> MemFile
        ensures fresh { result ≡ at_rest [] }
    {
        MemFile {
            bytes: Vec::new(alloc),
            synced: Vec::new(alloc),
            least: 0,
            greatest: 0,
            written: Vec::new(alloc),
        }
    }

    /// A file at rest with these bytes.
    pub fn at_rest(alloc: Global, bytes: &[u8]) -> Result<MemFile, NoMemory>
        ensures rest { IfOk result (λ file. file ≡ at_rest bytes.now) }
    {
        let len = bytes.len() as u64;
        let synced = copy_of(alloc, bytes)?;
        let bytes = copy_of(alloc, bytes)?;
        Ok(MemFile {
            bytes,
            synced,
            least: len,
            greatest: len,
            written: Vec::new(alloc),
        })
    }

    /// What a read gives.
    pub fn bytes(&self) -> &[u8]
        ensures value { result.now ≡ self.now.bytes }
    {
        self.bytes.as_slice()
    }

    /// Whether a place is in one of the ranges that were written.
    fn is_written(&self, place: u64) -> bool
        ensures value { result ≡ is_written self.now.written place }
    {
        self.written
            .iter()
            .any(|span| span.from <= place && place < span.to)
    }

    /// The wanted byte of a place, or the one that is read where that stays.
    fn byte_left(&self, wanted: &[u8], place: u64) -> u8
        ensures stays { place < self.now.least → is_written self.now.written place ≡ false
            → result ≡ slice_index self.now.bytes place }
        ensures wanted { place < length wanted.now → (result ≡ slice_index wanted.now place)
            ⊎ ((place < self.now.least) × (is_written self.now.written place ≡ false)) }
        ensures byte { result < 256 }
    {
        if place < self.least && !self.is_written(place) {
            return self.bytes[place as usize];
        }
        match wanted.get(place as usize) {
            Some(byte) => *byte,
            None => 0,
        }
    }

    /// The wanted bytes, as far as a crash may leave them.
    fn fitted(&self, alloc: Global, wanted: &[u8]) -> Result<Vec<u8>, NoMemory>
        ensures left { IfOk result (λ left. IsLeft self.now left.items) }
        ensures bytes { IfOk result (λ left. AreBytes left.items) }
        ensures same { IsLeft self.now wanted.now → IfOk result (λ left. left.items ≡ wanted.now) }
    {
        let len = (wanted.len() as u64).max(self.least).min(self.greatest);
        let mut left = Vec::new(alloc);
        for place in 0..len {
            match left.push(self.byte_left(wanted, place)) {
                Ok(()) => {}
                Err(_) => return Err(NoMemory),
            }
        }
        Ok(left)
    }

    /// Bytes that a crash may leave of it, as the number picks them. This file has the stated number in the
    /// calls, which are those of its volume.
    pub fn image(
        &self,
        alloc: Global,
        number: u32,
        calls: &[Call],
        pick: u64,
    ) -> Result<Vec<u8>, NoMemory>
        ensures picked { IfOk result (λ image. IsPicked pick self.now image.items) }
    {
        match pick {
            0 => self.fitted(alloc, self.synced.as_slice()),
            1 => self.fitted(alloc, self.bytes.as_slice()),
            _ => {
                let draft = draft(alloc, self.synced.as_slice(), number, calls, pick)?;
                self.fitted(alloc, draft.as_slice())
            }
        }
    }

    /// Writes, or fails at some part of it. An `Err` leaves the file as it was.
    fn write(&mut self, at: u64, bytes: &[u8], is_done: bool) -> Result<(), NoMemory>
        requires within { at ≤ length self.old.bytes }
        ensures ok { OnOk result (self.new ≡ after (Deed.Write at bytes.now) is_done self.old) }
        ensures err { OnErr result (self.new ≡ self.old) }
    {
        if self.written.reserve(1).is_err() {
            return Err(NoMemory);
        }
        let to = at + bytes.len() as u64;
        let len = (self.bytes.len() as u64).max(to);
        match write_if(&mut self.bytes, at as usize, bytes, is_done) {
            Ok(()) => {}
            Err(NoMemory) => return Err(NoMemory),
        }
        self.greatest = self.greatest.max(len);
        keep_span(&mut self.written, Span { from: at, to });
        Ok(())
    }

    /// Grows by so many zeros, or fails at some part of it. An `Err` leaves the file as it was.
    fn grow(&mut self, alloc: Global, count: u64, is_done: bool) -> Result<(), NoMemory>
        ensures ok { OnOk result (self.new ≡ after (Deed.Grow count) is_done self.old) }
        ensures err { OnErr result (self.new ≡ self.old) }
    {
        let zeros = zeros(alloc, count)?;
        let len = self.bytes.len() as u64;
        self.write(len, zeros.as_slice(), is_done)
    }

    /// Cuts, or fails at some part of it.
    fn cut(&mut self, to: u64, is_done: bool)
        requires within { to ≤ length self.old.bytes }
        ensures after { self.new ≡ after (Deed.Cut to) is_done self.old }
    {
        self.least = self.least.min(to);
        if is_done {
            self.bytes.truncate(to as usize);
        }
    }

    /// Brings all to the disk. An `Err` leaves the file as it was.
    fn sync(&mut self, alloc: Global) -> Result<(), NoMemory>
        ensures ok { OnOk result (self.new ≡ at_rest self.old.bytes) }
        ensures err { OnErr result (self.new ≡ self.old) }
    {
        let len = self.bytes.len() as u64;
        self.synced = copy_of(alloc, self.bytes.as_slice())?;
        self.least = len;
        self.greatest = len;
        self.written.clear();
        Ok(())
    }

    /// Does what a call does, or some part of it if the call fails. An `Err` leaves the file as it was.
    pub fn apply(&mut self, alloc: Global, deed: &Deed, is_done: bool) -> Result<(), NoMemory>
        requires can { CanDo deed.now self.old }
        ensures ok { OnOk result (self.new ≡ after deed.now is_done self.old) }
        ensures err { OnErr result (self.new ≡ self.old) }
    {
        match deed {
            Deed::Len | Deed::End => Ok(()),
            Deed::Read { at: _, count: _ } => Ok(()),
            Deed::Write { at, bytes } => self.write(*at, bytes.as_slice(), is_done),
            Deed::Grow { count } => self.grow(alloc, *count, is_done),
            Deed::Cut { to } => {
                self.cut(*to, is_done);
                Ok(())
            }
            Deed::Sync => {
                if is_done {
                    return self.sync(alloc);
                }
                Ok(())
            }
        }
    }
}
