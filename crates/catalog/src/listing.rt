//! The subjects of all places, under numbers in one index.

ghost use Rattle.std.specs.Prelude.{◌≡◌, ◌<◌, ◌+◌, ◌*◌, ◌^◌, ◌++◌, [], ◌∷◌, length, IfOk, OnOk, OnErr};
ghost use Rattle.std.specs.List.{list_any};
ghost use Rattle.route_index.specs.Subs.{IsAbove};
ghost use Rattle.catalog.specs.Entries.{is_other, is_of_other, meets_other};
ghost use Rattle.catalog.specs.Numbers.{numbers, numbered, without_numbers, IsEarlier, IsPut};

use js_base::{Blob, NoMemory};
use route_index::{RouteIndex, Sub};
use std::alloc::Global;

/// How far the numbers of one place are apart: as many places there are at most.
pub(crate) const PLACES: u64 = 32;

/// How many rounds of numbers there are.
const MOST_ROUNDS: u64 = 1 << 58;

/// The index by subject, and how many rounds of numbers were given: in each round one number to a place.
#[derive(Drop, Debug)]
pub(crate) struct Listing {
    pub(crate) index: RouteIndex,
    pub(crate) rounds: u64,
}

impl Listing {
    /// No subjects. It takes no memory.
    pub(crate) fn new(alloc: Global) -> Listing
        ensures empty { result.index ≡ [] }
        ensures rounds { result.rounds ≡ 0 }
    {
        Listing {
            index: RouteIndex::new(alloc),
            rounds: 0,
        }
    }

    /// Puts the subjects of a place under numbers that it never had, and answers the first one. An `Err` puts none. It comes also after
    /// 2^58 rounds, which take longer than a server lives.
    pub(crate) fn put(&mut self, place: u32, subjects: &[Blob]) -> Result<u64, NoMemory>
        requires place { place < 32 }
        requires earlier { IsEarlier self.old }
        ensures ok { IfOk result (λ first. IsPut place subjects.now self.old first self.new) }
        ensures err { OnErr result (self.new ≡ self.old) }
    {
        let count = subjects.len() as u64;
        if count > MOST_ROUNDS - self.rounds {
            return Err(NoMemory);
        }
        let first = self.rounds * PLACES + u64::from(place);
        match put_all(&mut self.index, first, subjects) {
            Ok(()) => {
                self.rounds += count;
                Ok(first)
            }
            Err(stop) => Err(stop),
        }
    }

    /// Whether one of the subjects meets one of a place other than their own, where they have a place already. The subjects of the others
    /// that meet none cost a few steps in an ordered map.
    pub(crate) fn overlaps(&self, own: Option<u32>, subjects: &[Blob]) -> Result<bool, NoMemory>
        ensures value { IfOk result (λ overlap. overlap ≡ list_any (meets_other own self.now.index) subjects.now) }
    {
        for subject in subjects {
            if self.meets_other(own, subject.as_slice())? {
                return Ok(true);
            }
        }
        Ok(false)
    }

    /// Whether the subject meets one of a place other than its own.
    fn meets_other(&self, own: Option<u32>, subject: &[u8]) -> Result<bool, NoMemory>
        ensures value { IfOk result (λ overlap. overlap ≡ meets_other own self.now.index subject.now) }
    {
        let ids = self.index.overlapping(subject)?;
        Ok(has_number_of_other(ids.as_slice(), own))
    }

    /// Lets go of the subjects under so many numbers of a place. It takes no memory.
    pub(crate) fn drop(&mut self, first: u64, count: usize)
        requires room { first + 32 * count < 2 ^ 64 }
        ensures left { self.new.index ≡ without_numbers (numbers first count) self.old.index }
        ensures rounds { self.new.rounds ≡ self.old.rounds }
    {
        drop_all(&mut self.index, first, count);
    }
}

/// Whether one of the numbers is one of a place other than its own.
fn has_number_of_other(ids: &[u64], own: Option<u32>) -> bool
    ensures value { result ≡ list_any (is_of_other own) ids.now }
{
    ids.iter().any(|id| is_other(own, (*id % PLACES) as u32))
}

/// Whether the place of the number is another one than a stream's own, where it has a place already.
fn is_other(own: Option<u32>, number: u32) -> bool
    ensures value { result ≡ is_other own number }
{
    match own {
        Some(own) => number != own,
        None => true,
    }
}

/// Puts subjects under numbers from the first on. An `Err` puts none.
fn put_all(index: &mut RouteIndex, first: u64, subjects: &[Blob]) -> Result<(), NoMemory>
    requires above { IsAbove first index.old }
    requires room { first + 32 * length subjects.now < 2 ^ 64 }
    ensures ok { OnOk result (index.new ≡ index.old ++ numbered first subjects.now) }
    ensures err { OnErr result (index.new ≡ index.old) }
{
    match put_each(index, first, subjects) {
        Ok(()) => Ok(()),
        Err(stop) => {
            drop_all(index, first, subjects.len());
            Err(stop)
        }
    }
}

/// Puts subjects under numbers from the first on. An `Err` may leave some of them.
fn put_each(index: &mut RouteIndex, first: u64, subjects: &[Blob]) -> Result<(), NoMemory>
    requires above { IsAbove first index.old }
    requires room { first + 32 * length subjects.now < 2 ^ 64 }
    ensures ok { OnOk result (index.new ≡ index.old ++ numbered first subjects.now) }
    ensures err { OnErr result (without_numbers (numbers first (length subjects.now)) index.new ≡ index.old) }
{
    let mut id = first;
    for subject in subjects {
        match put_one(index, id, subject) {
            Ok(()) => id += PLACES,
            Err(stop) => return Err(stop),
        }
    }
    Ok(())
}

/// Puts a subject under a number.
fn put_one(index: &mut RouteIndex, id: u64, subject: &Blob) -> Result<(), NoMemory>
    requires above { IsAbove id index.old }
    ensures ok { OnOk result (index.new ≡ index.old ++ numbered id (subject.now ∷ [])) }
    ensures err { OnErr result (index.new ≡ index.old) }
{
    let pattern = subject.clone()?;
    index.add(Sub { id, pattern })
}

/// Lets go of the subjects under so many numbers from the first on.
fn drop_all(index: &mut RouteIndex, first: u64, count: usize)
    requires room { first + 32 * count < 2 ^ 64 }
    ensures left { index.new ≡ without_numbers (numbers first count) index.old }
{
    let mut id = first;
    for _ in 0..count {
        index.remove(id);
        id += PLACES;
    }
}
