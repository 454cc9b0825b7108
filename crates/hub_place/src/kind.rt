//! What a place behind the turns stands for.

ghost use Rattle.histories.specs.Lawful.{IsPlaceHistory};
ghost use Rattle.hub_place.specs.Kinds.{PlaceIs, opening_of};
ghost use Rattle.hub_place.specs.Histories.{is_history};

use crate::place::HubPlace;
use place_engine::Place;
use std::marker::PhantomData;
use turn_lock::{Lawful, Standing};

/// A place that many hold, with its port: it stands for the steps that lead to it from its opening state. The port has sent the outputs of these steps,
/// and a crash may leave a beginning of them.
pub struct PlaceKind<P> {
    place: PhantomData<P>,
}

impl<P> Lawful for PlaceKind<P> {
    ghost lawful = { IsPlaceHistory };
}

impl<P: Place> Standing<HubPlace<P>> for PlaceKind<P> {
    ghost opens = { λ hub. opening_of (P.seen hub.place).place hub.port };

    ghost stands = { λ opening entries hub. PlaceIs P.holds P.left P.clock P.base P.keeps_vol opening entries (P.seen hub.place).place (P.vol hub.place) hub.port };

    ghost all_lawful = { λ opening entries hub is. is_history P.holds P.left P.clock P.base P.keeps_vol opening entries (P.seen hub.place).place (P.vol hub.place) hub.port is };
}
