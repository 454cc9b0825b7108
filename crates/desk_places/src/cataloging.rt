//! The catalog with which a desk begins: the streams of its places.

ghost use Rattle.std.specs.Prelude.{◌≡◌, ◌≤◌, IfErr, IfOk, length, map};
ghost use Rattle.js_model.specs.Catalog.{catalog_of};
ghost use Rattle.js_api.specs.Worlds.{kept_in};
ghost use Rattle.catalog.specs.Apart.{IsApart};
ghost use Rattle.desk_places.specs.Cataloging.{IsUncataloged};
ghost use Rattle.desk_places.specs.Places.{places_by};

use catalog::{Catalog, first_conflict};
use js_base::{Name, NoMemory};
use js_model::{KeptPlace, copy_texts};
use place_engine::Place;
use std::alloc::Global;

/// Why no catalog can begin with the streams of the places.
#[derive(Clone, Copy, Debug)]
pub enum Uncataloged {
    /// The streams of these two share a name or have subjects that meet.
    Conflict { first: u32, second: u32 },
    NoMemory,
}

/// What the catalog begins with for a place.
fn kept_of<P: Place>(alloc: Global, place: &P) -> Result<KeptPlace, NoMemory>
    ensures kept { IfOk result (λ kept. kept ≡ kept_in (P.seen place.now).place) }
{
    let Some(name) = place.name() else {
        return Ok(KeptPlace {
            incarnation: place.incarnation(),
            stream: None,
        });
    };
    // the text is a name
    let Ok(name) = Name::read(alloc, name.as_slice()) else {
        return Err(NoMemory);
    };
    let subjects = copy_texts(alloc, place.subjects())?;
    Ok(KeptPlace {
        incarnation: place.incarnation(),
        stream: Some((name, subjects)),
    })
}

/// What the catalog begins with.
fn kept_places<P: Place>(alloc: Global, places: &[P]) -> Result<Vec<KeptPlace>, NoMemory>
    ensures kept { IfOk result (λ kept. kept.items ≡ map kept_in (places_by P.seen places.now)) }
{
    let mut kept = Vec::new(alloc);
    for place in places {
        kept.push(kept_of(alloc, place)?)?;
    }
    Ok(kept)
}

/// The catalog with the streams of the places. A conflict is one of the first two places that conflict, the lowest first.
pub fn catalog_of<P: Place>(alloc: Global, places: &[P]) -> Result<Catalog, Uncataloged>
    requires few { length places.now ≤ 32 }
    ensures opened { IfOk result (λ catalog. catalog ≡ catalog_of (map kept_in (places_by P.seen places.now))) }
    ensures apart { IfOk result IsApart }
    ensures uncataloged { IfErr result (IsUncataloged (map kept_in (places_by P.seen places.now))) }
{
    let Ok(kept) = kept_places(alloc, places) else {
        return Err(Uncataloged::NoMemory);
    };
    if let Some((first, second)) = first_conflict(kept.as_slice()) {
        return Err(Uncataloged::Conflict { first, second });
    }
    match Catalog::of(alloc, kept.as_slice()) {
        Ok(catalog) => Ok(catalog),
        Err(_) => Err(Uncataloged::NoMemory),
    }
}
