//! The entries of a turn.

ghost use Rattle.std.specs.Prelude.{◌≡◌, ◌++◌, [], ◌∷◌};
ghost use Rattle.turn_lock.specs.Calls.{number_of};
ghost use Rattle.hub_catalog.specs.Calls.{call_of, told_of};
ghost use Rattle.hub_fronts.specs.Stepping.{looked_by};

use crate::kind::CatalogKind;
use crate::look::Look;
use catalog::Catalog;
use histories::Past;
use js_base::{Blob, Name};
use js_model::{CatalogFault, PlaceAt};
use turn_lock::{Entries, InTurn, Noted, Notes};

/// A call of the catalog, with what it is given.
#[derive(Clone, Copy)]
pub(crate) enum Call<'a> {
    Look(Look<'a>),
    Add(&'a Name, &'a [Blob]),
    Change(u32, &'a [Blob]),
    Keep(u32, bool),
    Remove(u32, bool),
    Stop(u32),
}

/// What the catalog answers.
#[derive(Clone, Copy)]
pub(crate) enum Told<'a> {
    Done,
    At(Option<PlaceAt>),
    Added(&'a Result<PlaceAt, CatalogFault>),
    Changed(&'a Result<(), CatalogFault>),
}

// A call that was made by a seat of this number, behind these entries of its turn.
#[derive(Drop)]
struct Made<'a> {
    before: &'a Entries,
    number: &'a Noted<u64>,
    call: Call<'a>,
    told: Told<'a>,
}

struct OneMore;

impl<'a> Notes<Made<'a>, Past> for OneMore {
    ghost note = { λ m. m.before.now.value ++ looked_by m.number.now.value (call_of m.call) (told_of m.told) ∷ [] };
}

/// The entries of a turn so far, and a call that was made then.
pub(crate) fn one_more(
    before: &Entries,
    seat: &InTurn<Catalog, CatalogKind>,
    call: Call<'_>,
    told: Told<'_>,
) -> Entries
    ensures value { result.value ≡ before.now.value ++ looked_by (number_of seat.now) (call_of call.entry) (told_of told.entry) ∷ [] }
{
    let number = seat.number();
    Entries::of::<Made, OneMore>(&Made {
        before,
        number: &number,
        call,
        told,
    })
}
