//! The calls of the catalog.

ghost use Rattle.std.specs.Prelude.{◌≡◌, ◌<◌, ◌≤◌, true, None, map, length, replicate, ◌++◌, ◌∷◌, [], IfOk, IfSome, OnOk, OnErr};
ghost use Rattle.js_model.specs.Catalog.{Find, ByName, NextUsed, Add, Change, Keep, Remove, Stop, Done, At, telling, catalog_call, IsCatalogCall, catalog_of, kept_place, new_place, place_named, first_place, overlaps_at, edited, taken_by, on_used, changing};
ghost use Rattle.js_model.specs.Cataloging.{add_told, change_told, HasPlace, IsUsed, MayChange, MayKeep, MayRemove};
ghost use Rattle.catalog.specs.Entries.{place_of, accepts, is_other, is_open, vacant_place, lists_of_stream, without_lists, HaveRoom, ChecksAdd};
ghost use Rattle.catalog.specs.Apart.{IsApart, used_at};

use crate::entry::{Entry, Listed, Sought, Stream};
use crate::listing::Listing;
use crate::names::Names;
use crate::used::UsedPlaces;
use js_base::{Blob, List, Name, NoMemory};
use js_model::refusals::{no_free_place, other_config, subjects_overlap};
use js_model::{CatalogFault, KeptPlace, PlaceAt, copy_texts};
use std::alloc::Global;
use std::marker::Model;

/// The places in order of their numbers, at most 32, with their streams by name and by subject. No two streams share a name, and no subject
/// of one meets one of another.
#[derive(Drop, Debug)]
pub struct Catalog {
    alloc: Global,
    entries: Vec<Entry>,
    /// The place of each stream, by its name.
    names: Names,
    /// The subjects of the streams.
    listing: Listing,
    /// The places of the streams.
    used: UsedPlaces,
}

impl Model for Catalog {
    ghost use Rattle.std.specs.Prelude.{map};
    ghost use Rattle.js_model.specs.Catalog.{Catalog as Places};
    ghost use Rattle.catalog.specs.Entries.{place_of};
    ghost use Rattle.catalog.specs.Holding.{Holds};

    ghost Value = { Places };

    ghost view = { λ catalog. map place_of catalog.entries.items };

    ghost invariant = { Holds };
}

impl Catalog {
    /// The catalog that begins with what each place kept, of which no two streams share a name or have subjects that meet.
    pub fn of(alloc: Global, kept: &[KeptPlace]) -> Result<Catalog, NoMemory>
        requires few { length kept.now ≤ 32 }
        requires apart { IsApart (catalog_of kept.now) }
        ensures opened { IfOk result (λ catalog. catalog ≡ catalog_of kept.now) }
    {
        let mut catalog = Catalog::new(alloc, 0)?;
        for place in kept {
            match catalog.push(place) {
                Ok(()) => {}
                Err(stop) => return Err(stop),
            }
        }
        Ok(catalog)
    }

    /// A catalog of so many places that never had a stream.
    pub fn new(alloc: Global, places: u32) -> Result<Catalog, NoMemory>
        requires few { places ≤ 32 }
        ensures vacant { IfOk result (λ catalog. catalog ≡ replicate places new_place) }
    {
        Ok(Catalog {
            alloc,
            entries: vacant_entries(alloc, places)?,
            names: Names::new(alloc),
            listing: Listing::new(alloc),
            used: UsedPlaces::new(alloc)?,
        })
    }

    /// No two streams share a name or have subjects that meet: so it is in each catalog, and this tells a proof so. It does nothing.
    pub fn apart(&self)
        ensures apart { IsApart self.now }
    {
        let _ = &self.alloc;
    }

    /// The place of the stream that takes the subject. The subjects that do not match cost a few steps in an ordered map. Without memory
    /// for that search it looks at one stream after the other.
    pub fn find(&self, subject: &[u8]) -> Option<PlaceAt>
        ensures found { catalog_call self.now (Find subject.now) ≡ telling (At result) self.now }
    {
        let entries = self.entries.as_slice();
        match self.listing.index.matching(subject) {
            Ok(ids) => first_place(entries, Sought::Among(ids.as_slice())),
            Err(_) => first_place(entries, Sought::Taker(subject)),
        }
    }

    /// The place of the stream of this name.
    pub fn by_name(&self, name: &Name) -> Option<PlaceAt>
        ensures found { catalog_call self.now (ByName name.now) ≡ telling (At result) self.now }
    {
        self.named(name)
    }

    /// The next used place in cyclic order: the first one of a greater number, or else the first of all. It looks at the used places alone.
    pub fn next_used(&self, after: u32) -> Option<PlaceAt>
        ensures found { catalog_call self.now (NextUsed after) ≡ telling (At result) self.now }
    {
        self.used.next(after)
    }

    /// Gives the stream the lowest place that is free. It is refused where its name is there, where one of its subjects meets one of
    /// another stream, and where no place is free, in this order. An `Err` changes nothing.
    pub fn add(&mut self, name: Name, subjects: &[Blob]) -> Result<PlaceAt, CatalogFault>
        ensures added { IsCatalogCall self.old (Add name subjects.now) (add_told result) self.new }
        ensures err { OnErr result (self.new ≡ self.old) }
    {
        self.apart();
        match self.free_for(&name, subjects) {
            Ok(free) => match self.put(free.place, name, subjects) {
                Ok(()) => Ok(free),
                Err(_) => Err(CatalogFault::NoMemory),
            },
            Err(fault) => Err(fault),
        }
    }

    /// Puts the new subjects of a stream beside its old ones. It is refused where one of them meets one of another stream. At a stopped
    /// place the subjects stay as they are. An `Err` changes nothing.
    pub fn change(&mut self, place: u32, subjects: &[Blob]) -> Result<(), CatalogFault>
        requires single { HasPlace self.old place MayChange }
        ensures changed { IsCatalogCall self.old (Change place subjects.now) (change_told result) self.new }
        ensures err { OnErr result (self.new ≡ self.old) }
    {
        if self.overlaps_some(Some(place), subjects)? {
            return Err(CatalogFault::Refused(subjects_overlap(self.alloc)?));
        }
        if !self.entries[place as usize].is_open() {
            return Ok(());
        }
        match self.put_beside(place, subjects) {
            Ok(()) => Ok(()),
            Err(_) => Err(CatalogFault::NoMemory),
        }
    }

    /// Drops the old subjects of a stream where `new` is true, and else the new ones. At a stopped place both stay.
    pub fn keep(&mut self, place: u32, new: bool)
        requires both { HasPlace self.old place MayKeep }
        ensures kept { catalog_call self.old (Keep place new) ≡ telling Done self.new }
    {
        match self.entries[place as usize].keep(new) {
            Some(left) => self.listing.drop(left.first, left.subjects.len()),
            None => {}
        }
    }

    /// Frees the place, also one that is stopped. Where `dropped` is true it keeps the next incarnation.
    pub fn remove(&mut self, place: u32, dropped: bool)
        requires used { HasPlace self.old place (MayRemove dropped) }
        ensures removed { catalog_call self.old (Remove place dropped) ≡ telling Done self.new }
    {
        let left = self.entries[place as usize].free(dropped);
        self.used.refill(&self.entries);
        match left {
            Some(stream) => {
                self.names.remove(&stream.name);
                forget(&mut self.listing, stream);
            }
            None => {}
        }
    }

    /// Marks the place stopped. It stays used, with its name and its subjects.
    pub fn stop(&mut self, place: u32)
        requires used { HasPlace self.old place IsUsed }
        ensures stopped { catalog_call self.old (Stop place) ≡ telling Done self.new }
    {
        self.entries[place as usize].stop();
    }

    /// The place of the stream of this name.
    fn named(&self, name: &Name) -> Option<PlaceAt>
        ensures value { result ≡ place_named name.now self.now }
    {
        match self.names.get(name) {
            Some(place) => Some(PlaceAt {
                place,
                incarnation: self.entries[place as usize].incarnation,
            }),
            None => None,
        }
    }

    /// The place for a new stream, or why it gets none.
    fn free_for(&self, name: &Name, subjects: &[Blob]) -> Result<PlaceAt, CatalogFault>
        ensures checked { ChecksAdd self.now name.now subjects.now result }
        ensures within { IfOk result (λ free. free.place < length self.now) }
    {
        if self.named(name).is_some() {
            return Err(CatalogFault::Refused(other_config(self.alloc)?));
        }
        if self.overlaps_some(None, subjects)? {
            return Err(CatalogFault::Refused(subjects_overlap(self.alloc)?));
        }
        match first_place(self.entries.as_slice(), Sought::Free) {
            Some(free) => Ok(free),
            None => Err(CatalogFault::Refused(no_free_place(self.alloc)?)),
        }
    }

    /// Whether one of the subjects meets one of a stream at a place other than their own.
    fn overlaps_some(&self, own: Option<u32>, subjects: &[Blob]) -> Result<bool, NoMemory>
        ensures value { IfOk result (λ overlap. overlap ≡ overlaps_at (is_other own) subjects.now 0 self.now) }
    {
        self.listing.overlaps(own, subjects)
    }

    /// Gives a free place to a stream that is apart from the others. An `Err` changes nothing.
    fn put(&mut self, place: u32, name: Name, subjects: &[Blob]) -> Result<(), NoMemory>
        requires within { place < length self.old }
        requires free { used_at self.old place ≡ None }
        requires apart { IsApart (edited (taken_by name subjects.now) place self.old) }
        ensures ok { OnOk result (self.new ≡ edited (taken_by name subjects.now) place self.old) }
        ensures err { OnErr result (self.new ≡ self.old) }
    {
        let list = copy_texts(self.alloc, subjects)?;
        let first = self.listing.put(place, subjects)?;
        match self.names.put(&name, place) {
            Ok(_) => {
                let listed = Listed {
                    first,
                    subjects: list,
                };
                self.entries[place as usize].take(name, listed);
                self.used.refill(self.entries.as_slice());
                Ok(())
            }
            Err(_) => {
                self.listing.drop(first, subjects.len());
                Err(NoMemory)
            }
        }
    }

    /// Puts new subjects, which are apart from those of the other streams, beside the old ones of a stream. An `Err` changes nothing.
    fn put_beside(&mut self, place: u32, subjects: &[Blob]) -> Result<(), NoMemory>
        requires single { HasPlace self.old place MayChange }
        requires open { HasPlace self.old place (λ there. is_open there ≡ true) }
        requires apart { IsApart (edited (on_used (changing subjects.now)) place self.old) }
        ensures ok { OnOk result (self.new ≡ edited (on_used (changing subjects.now)) place self.old) }
        ensures err { OnErr result (self.new ≡ self.old) }
    {
        let list = copy_texts(self.alloc, subjects)?;
        let first = self.listing.put(place, subjects)?;
        let listed = Listed {
            first,
            subjects: list,
        };
        self.entries[place as usize].change(listed);
        Ok(())
    }

    /// Adds a place with what it kept, which is apart from the others. An `Err` says nothing of what is left.
    fn push(&mut self, kept: &KeptPlace) -> Result<(), NoMemory>
        requires few { length self.old < 32 }
        requires apart { IsApart (self.old ++ kept_place kept.now ∷ []) }
        ensures ok { OnOk result (self.new ≡ self.old ++ kept_place kept.now ∷ []) }
    {
        let place = self.entries.len() as u32;
        self.push_vacant(kept.incarnation)?;
        match &kept.stream {
            Some(stream) => self.put(place, stream.0.clone()?, stream.1.as_slice()),
            None => Ok(()),
        }
    }

    /// Adds a place without a stream. An `Err` changes nothing.
    fn push_vacant(&mut self, incarnation: u64) -> Result<(), NoMemory>
        requires few { length self.old < 32 }
        ensures ok { OnOk result (self.new ≡ self.old ++ vacant_place incarnation ∷ []) }
        ensures err { OnErr result (self.new ≡ self.old) }
    {
        self.entries.push(Entry {
            incarnation,
            used: None,
        })?;
        Ok(())
    }
}

/// So many places that never had a stream.
fn vacant_entries(alloc: Global, places: u32) -> Result<Vec<Entry>, NoMemory>
    ensures vacant { IfOk result (λ entries. map place_of entries.items ≡ replicate places new_place) }
{
    let mut entries = Vec::new(alloc);
    for _ in 0..places {
        entries.push(Entry {
            incarnation: 1,
            used: None,
        })?;
    }
    Ok(entries)
}

/// Lets go of the subjects of a stream.
fn forget(listing: &mut Listing, stream: Stream)
    requires room { HaveRoom (lists_of_stream stream) }
    ensures left { listing.new.index ≡ without_lists (lists_of_stream stream) listing.old.index }
    ensures rounds { listing.new.rounds ≡ listing.old.rounds }
{
    listing.drop(stream.current.first, stream.current.subjects.len());
    if let Some(replacing) = &stream.replacing {
        listing.drop(replacing.first, replacing.subjects.len());
    }
}

/// The first place that is looked for.
fn first_place(entries: &[Entry], sought: Sought<'_>) -> Option<PlaceAt>
    requires few { length entries.now ≤ 32 }
    ensures value { result ≡ first_place (accepts sought.entry) 0 (map place_of entries.now) }
    ensures within { IfSome result (λ found. found.place < length entries.now) }
{
    for (number, entry) in entries.iter().enumerate() {
        if entry.fits(number as u32, sought) {
            return Some(PlaceAt {
                place: number as u32,
                incarnation: entry.incarnation,
            });
        }
    }
    None
}
