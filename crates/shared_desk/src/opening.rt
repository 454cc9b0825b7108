//! The opening of a hub: a place on each volume, a lock round each and round the router and the catalog, and a pass for each caller.

ghost use Rattle.std.specs.Prelude.{◌≡◌, ◌≤◌, ◌<◌, ◌+◌, List, [], None, IfErr, IfOk, IfSome, OnOk, length, map, vec_capacity, vec_len};
ghost use Rattle.std.specs.List.{AllByRecursion, AllZip};
ghost use Rattle.js_model.specs.Catalog.{catalog_of};
ghost use Rattle.js_model.specs.declared.kept_place.KeptPlace.{KeptPlace};
ghost use Rattle.histories.specs.Entries.{OfCatalog, OfRouter};
ghost use Rattle.turn_lock.specs.Seats.{SeatView};
ghost use Rattle.hub_place.specs.Kinds.{IsNewPort, opening_of};
ghost use Rattle.shared_desk.specs.Faults.{fault_of};
ghost use Rattle.shared_desk.specs.Laying.{IsDealt, IsLaid, IsSameSeat, LocksAll, passes_of, put_each, rows_of};
ghost use Rattle.shared_desk.specs.Opening.{ComesBack, FailsToOpenHub, OpensHub, WasOpened};
ghost use Rattle.shared_desk.specs.Seats.{AreThere};

use crate::dealt::Dealt;
use crate::finding::Tally;
use crate::hub::Hub;
use crate::pass::Pass;
use catalog::Catalog;
use desk_places::{HubFault, Uncataloged, catalog_of, give_back, open_places};
use hub_catalog::{CatalogKind, law_opening};
use hub_place::{HubPlace, PlaceKind, Timers};
use hub_router::RouterKind;
use js_base::NoMemory;
use js_model::LAST_PLACE;
use place_engine::Place;
use route_core::{Roused, Router};
use std::alloc::Global;
use std::sync::Arc;
use turn_lock::{Seat, Turns};

/// The seats of one caller at the places.
type Row<P> = Vec<Option<Seat<PlaceKind<P>>>>;

/// A place behind turns.
type LockedPlace<P> = Turns<HubPlace<P>, PlaceKind<P>>;

/// A row without seats for each caller, with room for one at each place. `None` is want of memory.
fn rows_for<P: Place>(alloc: Global, places: usize, callers: u32) -> Option<Vec<Row<P>>>
    ensures rows { IfSome result (λ rows. map (λ row. row.items) rows.items ≡ rows_of [] callers) }
    ensures room { IfSome result (λ rows. AllByRecursion (λ row. places ≤ vec_capacity row) rows.items) }
{
    let mut rows = Vec::with_capacity(alloc, callers as usize).ok()?;
    for _ in 0..callers {
        let Ok(row) = Vec::with_capacity(alloc, places) else {
            return None;
        };
        rows.push_reserved(row);
    }
    Some(rows)
}

/// A lock round a place that was just opened and its port. An `Err` gives both back: there is no memory.
fn lock_place<P: Place>(
    alloc: Global,
    place: P,
    port: Seat<RouterKind>,
    callers: u32,
) -> Result<Dealt<HubPlace<P>, PlaceKind<P>>, (P, Seat<RouterKind>)>
    requires opened { WasOpened P.seen P.vol P.holds P.reads P.left P.clock P.faults P.room_causes P.base P.opens P.refuses P.keeps_vol place }
    requires new { IsNewPort port }
    requires callers { (0 < callers) × (callers ≤ 33) }
    ensures dealt { IfOk result (λ d. IsDealt (opening_of (P.seen place).place port) callers d.lock d.seats.items) }
    ensures err { IfErr result (λ e. (e.0 ≡ place) × (e.1 ≡ port)) }
{
    place.law_kept();
    match Dealt::new(alloc, HubPlace::of(place, port), callers) {
        Ok(dealt) => Ok(dealt),
        Err(value) => Err(value.into_parts()),
    }
}

/// Puts one of the seats behind those of each row, in their order.
fn deal<P: Place>(seats: &mut Vec<Seat<PlaceKind<P>>>, rows: &mut Vec<Row<P>>)
    requires as_many { length seats.old.items ≡ length rows.old.items }
    requires room { AllByRecursion (λ row. vec_len row < vec_capacity row) rows.old.items }
    ensures dealt { map (λ row. row.items) rows.new.items ≡ put_each (map (λ row. row.items) rows.old.items) seats.old.items }
    ensures room { map vec_capacity rows.new.items ≡ map vec_capacity rows.old.items }
    ensures capacity { vec_capacity rows.new ≡ vec_capacity rows.old }
{
    if rows.is_empty() {
        return;
    }
    let mut row = rows.take_last();
    row.push_reserved(Some(seats.take_last()));
    deal(seats, rows);
    rows.push_reserved(row);
}

/// Puts each place behind turns with the last of these seats at the router for its port, and gives each row a seat of it. An `Err` is want of memory:
/// all locks were ended again.
fn lock_places<P: Place>(
    alloc: Global,
    places: &mut Vec<P>,
    ports: &mut Vec<Seat<RouterKind>>,
    callers: u32,
    locks: &mut Vec<LockedPlace<P>>,
    rows: &mut Vec<Row<P>>,
) -> Result<(), NoMemory>
    requires opened { AllByRecursion (WasOpened P.seen P.vol P.holds P.reads P.left P.clock P.faults P.room_causes P.base P.opens P.refuses P.keeps_vol) places.old.items }
    requires new { AllByRecursion IsNewPort ports.old.items }
    requires enough { length places.old.items ≤ length ports.old.items }
    requires callers { (0 < callers) × (callers ≤ 33) }
    requires none { locks.old.items ≡ [] }
    requires room { length places.old.items ≤ vec_capacity locks.old }
    requires rows { map (λ row. row.items) rows.old.items ≡ rows_of [] callers }
    requires rooms { AllByRecursion (λ row. length places.old.items ≤ vec_capacity row) rows.old.items }
    ensures locked { OnOk result (LocksAll P.seen callers places.old.items ports.old.items ports.new.items locks.new.items) }
    ensures emptied { OnOk result (places.new.items ≡ []) }
    ensures dealt { OnOk result (map (λ row. row.items) rows.new.items ≡ rows_of locks.new.items callers) }
    ensures back { IfErr result (λ _. AllZip (ComesBack P.seen P.vol P.holds P.reads P.left P.clock P.faults P.room_causes P.base P.opens P.refuses P.keeps_vol) places.old.items places.new.items) }
    ensures ports { IfErr result (λ _. AllZip IsSameSeat ports.old.items ports.new.items) }
    ensures none { IfErr result (λ _. locks.new.items ≡ []) }
    ensures room { (vec_capacity places.new ≡ vec_capacity places.old) × (vec_capacity ports.new ≡ vec_capacity ports.old) × (vec_capacity locks.new ≡ vec_capacity locks.old) }
    ensures rooms { map vec_capacity rows.new.items ≡ map vec_capacity rows.old.items }
{
    if places.is_empty() {
        return Ok(());
    }
    match lock_place(alloc, places.take_last(), ports.take_last(), callers) {
        Ok(dealt) => match lock_places(alloc, places, ports, callers, locks, rows) {
            Ok(()) => {
                let Dealt { lock, mut seats } = dealt;
                locks.push_reserved(lock);
                deal(&mut seats, rows);
                Ok(())
            }
            Err(stop) => {
                let (place, port) = dealt.undo().into_parts();
                places.push_reserved(place);
                ports.push_reserved(port);
                Err(stop)
            }
        },
        Err((place, port)) => {
            places.push_reserved(place);
            ports.push_reserved(port);
            Err(NoMemory)
        }
    }
}

/// A pass of each row, with one seat each at the router and at the catalog.
fn deal_passes<P: Place>(
    rows: Vec<Row<P>>,
    routers: Vec<Seat<RouterKind>>,
    catalogs: Vec<Seat<CatalogKind>>,
    passes: &mut Vec<Pass<P>>,
)
    requires none { passes.old.items ≡ [] }
    requires room { length rows.items ≤ vec_capacity passes.old }
    requires routers { length routers.items ≡ length rows.items }
    requires catalogs { length catalogs.items ≡ length rows.items }
    requires there { AllByRecursion (λ row. AreThere row.items) rows.items }
    ensures dealt { passes.new.items ≡ passes_of (map (λ row. row.items) rows.items) routers.items catalogs.items }
{
    let mut rows = rows;
    let mut routers = routers;
    let mut catalogs = catalogs;
    while !rows.is_empty() {
        passes.push_reserved(Pass {
            router: Some(routers.take_last()),
            catalog: Some(catalogs.take_last()),
            places: rows.take_last(),
            // a tick that is not aimed goes to the first used place
            ticked: LAST_PLACE,
            last: None,
        });
    }
    passes.reverse();
}

/// The locks round the router and the catalog. `None` is want of memory.
fn lock_both(
    alloc: Global,
    roused: Arc<Roused>,
    catalog: Catalog,
    callers: u32,
    places: u32,
) -> Option<(Dealt<Router, RouterKind>, Dealt<Catalog, CatalogKind>)>
    requires catalog { (kept : List KeptPlace) × (catalog ≡ catalog_of kept) }
    requires callers { (0 < callers) × (callers ≤ 33) }
    requires few { places ≤ 32 }
    ensures router { IfSome result (λ d. IsDealt OfRouter (callers + places) d.0.lock d.0.seats.items) }
    ensures catalog { IfSome result (λ d. IsDealt (OfCatalog catalog) callers d.1.lock d.1.seats.items) }
{
    law_opening();
    let Ok(router) = Dealt::new(alloc, Router::rousing(alloc, roused), callers + places) else {
        return None;
    };
    match Dealt::new(alloc, catalog, callers) {
        Ok(catalog) => Some((router, catalog)),
        Err(_) => {
            router.undo();
            None
        }
    }
}

/// The locks of a hub, and its passes.
struct Laid<P: Place> {
    roused: Arc<Roused>,
    timers: Timers,
    router: Turns<Router, RouterKind>,
    catalog: Turns<Catalog, CatalogKind>,
    places: Vec<LockedPlace<P>>,
    passes: Vec<Pass<P>>,
}

/// Lays the locks of a hub round the places, which are moved out. `None` is want of memory, and leaves the places.
fn lay<P: Place>(
    alloc: Global,
    catalog: Catalog,
    places: &mut Vec<P>,
    callers: u32,
) -> Option<Laid<P>>
    requires catalog { (kept : List KeptPlace) × (catalog ≡ catalog_of kept) }
    requires opened { AllByRecursion (WasOpened P.seen P.vol P.holds P.reads P.left P.clock P.faults P.room_causes P.base P.opens P.refuses P.keeps_vol) places.old.items }
    requires few { length places.old.items ≤ 32 }
    requires callers { (0 < callers) × (callers ≤ 33) }
    ensures laid { IfSome result (λ l. IsLaid P.seen catalog callers places.old.items (record { router = l.router; catalog = l.catalog; places = l.places.items }) l.passes.items) }
    ensures emptied { IfSome result (λ _. places.new.items ≡ []) }
    ensures back { result ≡ None → AllZip (ComesBack P.seen P.vol P.holds P.reads P.left P.clock P.faults P.room_causes P.base P.opens P.refuses P.keeps_vol) places.old.items places.new.items }
    ensures room { vec_capacity places.new ≡ vec_capacity places.old }
{
    let count = places.len();
    let timers = Timers::of(alloc, places.as_slice())?;
    let roused = Arc::new(alloc, Roused::new()).ok()?;
    let noted = Arc::try_clone(&roused).ok()?;
    let mut rows = rows_for(alloc, count, callers)?;
    let Ok(mut passes) = Vec::with_capacity(alloc, callers as usize) else {
        return None;
    };
    let Ok(mut locks) = Vec::with_capacity(alloc, count) else {
        return None;
    };
    let Some((mut router, catalog)) = lock_both(alloc, noted, catalog, callers, count as u32) else {
        locks.destroy_empty();
        return None;
    };
    match lock_places(
        alloc,
        places,
        &mut router.seats,
        callers,
        &mut locks,
        &mut rows,
    ) {
        Ok(()) => {
            let Dealt {
                lock: router,
                seats: routers,
            } = router;
            let Dealt {
                lock: catalog,
                seats: catalogs,
            } = catalog;
            deal_passes(rows, routers, catalogs, &mut passes);
            Some(Laid {
                roused,
                timers,
                router,
                catalog,
                places: locks,
                passes,
            })
        }
        Err(NoMemory) => {
            router.undo();
            catalog.undo();
            locks.destroy_empty();
            None
        }
    }
}

impl<P: Place> Hub<P> {
    /// Opens a place on each volume, at most 32, in their order, and gives out a pass for each of 1 to 33 callers. No session was opened. An `Err` gives
    /// the volumes back, each as its place left it: of the places that were opened by then, nothing is left but their volumes.
    pub fn open(
        alloc: Global,
        vols: Vec<P::Vol>,
        callers: u32,
    ) -> Result<(Hub<P>, Vec<Pass<P>>), HubFault<P::Vol>>
        requires few { length vols.items ≤ 32 }
        requires callers { (0 < callers) × (callers ≤ 33) }
        ensures opened { IfOk result (λ r. OpensHub P.seen P.vol P.holds P.reads P.left P.clock P.faults P.room_causes P.base P.opens P.refuses P.keeps_vol vols.items callers r.0 r.1.items) }
        ensures err { IfErr result (FailsToOpenHub P.seen P.vol P.holds P.reads P.left P.clock P.faults P.room_causes P.base P.opens P.refuses P.keeps_vol vols.items) }
    {
        let (places, vols) = open_places(alloc, vols)?;
        let mut places = places;
        let mut vols = vols;
        let catalog = match catalog_of(alloc, places.as_slice()) {
            Ok(catalog) => catalog,
            Err(stop) => {
                give_back(places, &mut vols);
                return Err(fault_of(stop, vols));
            }
        };
        let opened = Tally::of(places.as_slice());
        match lay(alloc, catalog, &mut places, callers) {
            Some(laid) => {
                let Laid {
                    roused,
                    timers,
                    router,
                    catalog,
                    places: locks,
                    passes,
                } = laid;
                let hub = Hub {
                    alloc,
                    roused,
                    timers,
                    router,
                    catalog,
                    places: locks,
                    opened,
                    row: places,
                    vols,
                };
                Ok((hub, passes))
            }
            None => {
                give_back(places, &mut vols);
                Err(HubFault::NoMemory { vols })
            }
        }
    }
}

/// Why a hub was not opened, by why it has no catalog.
fn fault_of<V>(stop: Uncataloged, vols: Vec<V>) -> HubFault<V>
    ensures value { result ≡ fault_of stop vols }
{
    match stop {
        Uncataloged::Conflict { first, second } => HubFault::Conflict {
            first,
            second,
            vols,
        },
        Uncataloged::NoMemory => HubFault::NoMemory { vols },
    }
}
