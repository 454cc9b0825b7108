//! The places that have a stream.

ghost use Rattle.std.specs.Prelude.{◌≡◌, ◌≤◌, [], IfOk, find, length, map, nat_lt};
ghost use Rattle.std.specs.Option.{option_copied};
ghost use Rattle.std.specs.Vec.{vec_capacity};
ghost use Rattle.catalog.specs.Entries.{place_of};
ghost use Rattle.catalog.specs.Used.{used_places, next_of};

use crate::entry::Entry;
use crate::listing::PLACES;
use js_base::NoMemory;
use js_model::PlaceAt;
use std::alloc::Global;
use std::marker::Model;

/// The used places in order of their numbers, with the incarnation that each keeps. There is room for all places from the beginning.
#[derive(Drop, Debug)]
pub(crate) struct UsedPlaces {
    places: Vec<PlaceAt>,
}

impl Model for UsedPlaces {
    ghost use Rattle.std.specs.Prelude.{List, ◌≤◌};
    ghost use Rattle.std.specs.Vec.{vec_capacity};
    ghost use Rattle.js_model.specs.declared.desk.PlaceAt.{PlaceAt};

    ghost Value = { List PlaceAt };

    ghost view = { λ used. used.places.items };

    ghost invariant = { λ used. 32 ≤ vec_capacity used.places };
}

impl UsedPlaces {
    /// No places.
    pub(crate) fn new(alloc: Global) -> Result<UsedPlaces, NoMemory>
        ensures empty { IfOk result (λ used. used ≡ []) }
    {
        Ok(UsedPlaces {
            places: Vec::with_capacity(alloc, PLACES as usize)?,
        })
    }

    /// The next place in cyclic order: the first one of a greater number, or else the first of all. A place that is alone is next to itself.
    pub(crate) fn next(&self, after: u32) -> Option<PlaceAt>
        ensures value { result ≡ next_of after self.now }
    {
        match self.places.as_slice() {
            [only] => Some(*only),
            places => next_among(places, after),
        }
    }

    /// Lists the used ones of the places instead. It takes no memory.
    pub(crate) fn refill(&mut self, entries: &[Entry])
        requires few { length entries.now ≤ 32 }
        ensures value { self.new ≡ used_places (map place_of entries.now) }
    {
        list_used(&mut self.places, entries);
    }
}

/// The first one of a greater number, or else the first of all.
fn next_among(places: &[PlaceAt], after: u32) -> Option<PlaceAt>
    ensures value { result ≡ next_of after places.now }
{
    match first_above(places, after) {
        Some(at) => Some(*at),
        None => places.first().copied(),
    }
}

/// The first place of a greater number.
fn first_above(places: &[PlaceAt], after: u32) -> Option<&PlaceAt>
    ensures value { option_copied result ≡ find (λ at. nat_lt after at.place) places.now }
{
    places.iter().find(|at| after < at.place)
}

/// Lists the used ones of the places instead of what was there.
fn list_used(places: &mut Vec<PlaceAt>, entries: &[Entry])
    requires few { length entries.now ≤ 32 }
    requires room { length entries.now ≤ vec_capacity places.old }
    ensures listed { places.new.items ≡ used_places (map place_of entries.now) }
    ensures capacity { vec_capacity places.new ≡ vec_capacity places.old }
{
    places.clear();
    for (number, entry) in entries.iter().enumerate() {
        if entry.is_used() {
            places.push_reserved(PlaceAt {
                place: number as u32,
                incarnation: entry.incarnation,
            });
        }
    }
}
