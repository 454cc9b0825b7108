//! A turn of the catalog, and one look-up in a turn of its own.

ghost use Rattle.std.specs.Prelude.{◌≡◌, ◌<◌, ◌≤◌, IfErr, IfOk, IfSome, OnErr, OnOk, false};
ghost use Rattle.js_model.specs.Catalog.{Add, At, ByName, Change, Done, IsCatalogCall, Keep, Remove, Stop};
ghost use Rattle.js_model.specs.Cataloging.{HasPlace, IsUsed, MayKeep, MayRemove, add_told, change_told};
ghost use Rattle.turn_lock.specs.Calls.{worn};
ghost use Rattle.turn_lock.specs.Ruled.{last_ticket};
ghost use Rattle.hub_fronts.specs.Stepping.{CatalogTurn};
ghost use Rattle.hub_fronts.specs.Turns.{HasSeen};
ghost use Rattle.hub_catalog.specs.Calls.{look_call};
ghost use Rattle.hub_catalog.specs.Kinds.{places_of};
ghost use Rattle.hub_catalog.specs.Lists.{AreSingle, AreSingleBut, HasChanging, HasSettled, HasText};
ghost use Rattle.hub_catalog.specs.Turns.{IsCalled};

use crate::kind::CatalogKind;
use crate::look::Look;
use crate::made::{Call, Told, one_more};
use catalog::Catalog;
use hub_fronts::{no_entries, ticket_of};
use js_base::{Blob, Name};
use js_model::{CatalogFault, PlaceAt};
use std::marker::Model;
use std::sync::Wait;
use turn_lock::{Entries, Held, Seat, Turns};

/// A turn of the catalog, in which several calls may be made. It shows what its seat will have seen as it ends, and the catalog as it is now. It can't
/// be dropped: `end` ends it.
pub struct OpenCatalog {
    held: Held<Catalog, CatalogKind>,
    /// What is left in it so far.
    entries: Entries,
}

impl Model for OpenCatalog {
    ghost use Rattle.turn_lock.specs.Calls.{added};
    ghost use Rattle.hub_catalog.specs.Turns.{IsOpenTurn, TurnView};

    ghost Value = { TurnView };

    ghost view = { λ t. record { seat = added t.held.seat t.entries.value; kept = t.held.value } };

    ghost invariant = { λ t. IsOpenTurn t.held.seat t.entries.value t.held.value };
}

/// Takes a place of the catalog for a stream of this name, of which it keeps a copy. An `Err` takes none.
fn add_named(catalog: &mut Catalog, name: &Name, subjects: &[Blob]) -> Result<PlaceAt, CatalogFault>
    ensures added { IsCatalogCall catalog.old (Add name.now subjects.now) (add_told result) catalog.new }
    ensures err { OnErr result (catalog.new ≡ catalog.old) }
{
    match name.clone() {
        Ok(name) => catalog.add(name, subjects),
        Err(_) => Err(CatalogFault::NoMemory),
    }
}

impl OpenCatalog {
    /// Enters a turn of this seat, and finds no change of a stream open. An `Err` tells the ticket that is never drawn, and gives the seat back, which
    /// knows that all are drawn.
    pub fn begin<W: Wait>(
        rt: &W,
        catalog: &Turns<Catalog, CatalogKind>,
        seat: Seat<CatalogKind>,
    ) -> Result<OpenCatalog, (u64, Seat<CatalogKind>)>
        requires own { seat.lock ≡ catalog.now.lock }
        ensures sees { IfOk result (λ t. HasSeen seat t.seat) }
        ensures ticket { IfOk result (λ t. (seat.drawn < t.seat.drawn) × (t.seat.drawn ≤ last_ticket)) }
        ensures single { IfOk result (λ t. AreSingle t.kept) }
        ensures worn { IfErr result (λ e. (e.0 ≡ last_ticket) × (e.1 ≡ worn seat)) }
    {
        match catalog.enter(rt, seat) {
            Ok(held) => {
                // that the number is one of the seat's is what the proof takes from this call
                let _ = held.seat.number();
                let entries = no_entries();
                Ok(OpenCatalog { held, entries })
            }
            Err((fault, seat)) => Err((ticket_of(fault), seat)),
        }
    }

    /// The place that is looked for, if there is one.
    fn look(&mut self, look: Look<'_>) -> Option<PlaceAt>
        ensures called { IsCalled (look_call look.entry) (At result) self.old self.new }
        ensures kept { self.new.kept ≡ self.old.kept }
        ensures within { IfSome result (λ at. at.place < places_of self.old.seat.opening) }
    {
        let found = look.make(&self.held.value);
        self.entries = one_more(
            &self.entries,
            &self.held.seat,
            Call::Look(look),
            Told::At(found),
        );
        found
    }

    /// The place of the stream of this name.
    pub fn by_name(&mut self, name: &Name) -> Option<PlaceAt>
        ensures called { IsCalled (ByName name.now) (At result) self.old self.new }
        ensures kept { self.new.kept ≡ self.old.kept }
        ensures within { IfSome result (λ at. at.place < places_of self.old.seat.opening) }
        ensures settled { AreSingle self.old.kept → IfSome result (HasSettled self.new.kept) }
    {
        self.look(Look::ByName(name))
    }

    /// Gives a stream of this name and these subjects the lowest place that is free. It is refused where its name is there, where one of its subjects
    /// meets one of another stream, and where no place is free, in this order. An `Err` leaves the catalog as it was.
    pub fn add(&mut self, name: &Name, subjects: &[Blob]) -> Result<PlaceAt, CatalogFault>
        ensures called { IsCalled (Add name.now subjects.now) (add_told result) self.old self.new }
        ensures err { OnErr result (self.new.kept ≡ self.old.kept) }
        ensures within { IfOk result (λ at. at.place < places_of self.old.seat.opening) }
        ensures settled { IfOk result (HasSettled self.new.kept) }
        ensures single { AreSingle self.old.kept → AreSingle self.new.kept }
        ensures text { HasText (add_told result) }
    {
        let added = add_named(&mut self.held.value, name, subjects);
        self.entries = one_more(
            &self.entries,
            &self.held.seat,
            Call::Add(name, subjects),
            Told::Added(&added),
        );
        added
    }

    /// Puts the new subjects of a stream beside its old ones. It is refused where one of them meets one of another stream. At a stopped place the
    /// subjects stay as they are. An `Err` leaves the catalog as it was.
    pub fn change(&mut self, at: PlaceAt, subjects: &[Blob]) -> Result<(), CatalogFault>
        requires settled { HasSettled self.old.kept at }
        ensures called { IsCalled (Change at.place subjects.now) (change_told result) self.old self.new }
        ensures err { OnErr result (self.new.kept ≡ self.old.kept) }
        ensures changing { OnOk result (HasChanging self.new.kept at) }
        ensures single { AreSingle self.old.kept → AreSingleBut at.place self.new.kept }
        ensures text { HasText (change_told result) }
    {
        let changed = self.held.value.change(at.place, subjects);
        self.entries = one_more(
            &self.entries,
            &self.held.seat,
            Call::Change(at.place, subjects),
            Told::Changed(&changed),
        );
        changed
    }

    /// Drops the old subjects of a stream where `new` is true, and else the new ones. At a stopped place both stay.
    pub fn keep(&mut self, place: u32, new: bool)
        requires both { HasPlace self.old.kept place MayKeep }
        ensures called { IsCalled (Keep place new) Done self.old self.new }
        ensures single { AreSingleBut place self.old.kept → AreSingle self.new.kept }
    {
        self.held.value.keep(place, new);
        self.entries = one_more(
            &self.entries,
            &self.held.seat,
            Call::Keep(place, new),
            Told::Done,
        );
    }

    /// Frees the place, also one that is stopped. Where `dropped` is true it keeps the next incarnation.
    pub fn remove(&mut self, place: u32, dropped: bool)
        requires used { HasPlace self.old.kept place (MayRemove dropped) }
        ensures called { IsCalled (Remove place dropped) Done self.old self.new }
        ensures single { AreSingleBut place self.old.kept → AreSingle self.new.kept }
    {
        self.held.value.remove(place, dropped);
        self.entries = one_more(
            &self.entries,
            &self.held.seat,
            Call::Remove(place, dropped),
            Told::Done,
        );
    }

    /// Marks the place stopped. It stays used, with its name and its subjects.
    pub fn stop(&mut self, place: u32)
        requires used { HasPlace self.old.kept place IsUsed }
        ensures called { IsCalled (Stop place) Done self.old self.new }
        ensures single { AreSingleBut place self.old.kept → AreSingle self.new.kept }
    {
        self.held.value.stop(place);
        self.entries = one_more(
            &self.entries,
            &self.held.seat,
            Call::Stop(place),
            Told::Done,
        );
    }

    /// Ends the turn, in which no change of a stream may be left open.
    pub fn end(self, catalog: &Turns<Catalog, CatalogKind>) -> Seat<CatalogKind>
        requires own { self.seat.lock ≡ catalog.now.lock }
        requires single { AreSingle self.kept }
        ensures seat { result ≡ self.seat }
    {
        let OpenCatalog { held, entries } = self;
        catalog.leave(held, entries)
    }
}

/// Looks up in a turn of this seat, and leaves that as the one entry of the turn. An `Err` tells the ticket that is never drawn: the catalog was not
/// called, since all of its tickets are drawn, and the seat knows it.
pub fn look_up<W: Wait>(
    rt: &W,
    catalog: &Turns<Catalog, CatalogKind>,
    seat: Seat<CatalogKind>,
    look: Look<'_>,
) -> (Result<Option<PlaceAt>, u64>, Seat<CatalogKind>)
    requires own { seat.lock ≡ catalog.now.lock }
    ensures looked { IfOk result.0 (λ found. CatalogTurn false (look_call look.entry) (At found) seat result.1) }
    ensures within { IfOk result.0 (λ found. IfSome found (λ at. at.place < places_of seat.opening)) }
    ensures worn { IfErr result.0 (λ number. (number ≡ last_ticket) × (result.1 ≡ worn seat)) }
{
    match OpenCatalog::begin(rt, catalog, seat) {
        Ok(mut turn) => {
            let found = turn.look(look);
            (Ok(found), turn.end(catalog))
        }
        Err((number, seat)) => (Err(number), seat),
    }
}
