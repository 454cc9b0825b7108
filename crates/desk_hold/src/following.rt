//! What follows the step of a hold: who listens is read, and deliveries are made.

ghost use Rattle.std.specs.Prelude.{◌≡◌, ℕ, None, Some, false};
ghost use Rattle.js_model.specs.declared.desk.PlaceAt.{PlaceAt};
ghost use Rattle.desk_hold.specs.Following.{Follows};

use crate::delivering::{Ending, deliver_all};
use crate::hearing::hear;
use crate::port::{Port, PortFault};
use js_api::DeskFault;
use js_base::{Moment, Outs};
use place_engine::Place;
use std::alloc::Global;

/// The last number of a store's generations.
pub const LAST_GENERATION: u64 = (1 << 62) - 1;

/// What a hold comes to behind its step, before its outputs are sent.
pub enum Following {
    /// It may send: whether a consumer is ready, or why the call ends with this hold.
    Heard {
        ready: bool,
        fault: Option<DeskFault>,
    },
    /// No turn of the router was left before who listens was told, and this is the last one. Nothing can be sent.
    Unheard(u64),
}

/// It may send, and the call ends with this hold.
pub fn failed(fault: DeskFault) -> Following
    ensures value { result ≡ Following.Heard false (Some fault) }
{
    Following::Heard {
        ready: false,
        fault: Some(fault),
    }
}

/// Reads by the port who listens for the push consumers of a place that is not stopped, and delivers to its consumers; what is to be sent is added.
pub fn follow<P: Place, R: Port>(
    alloc: Global,
    place: &mut P,
    port: &mut R,
    now: Moment,
    outs: &mut Outs,
) -> Following
    requires going { (P.seen place.old).place.stopped ≡ None }
    ensures follows { (seat : ℕ) (at : PlaceAt) → Follows R.routes R.worn seat at now P.holds result (P.seen place.old) (P.seen place.new) port.old port.new outs.old outs.new }
    ensures vol { P.keeps_vol (P.vol place.old) (P.vol place.new) }
{
    place.law_kept();
    let listening = match hear(alloc, place, port) {
        Ok(listening) => listening,
        Err(PortFault::NoMemory) => return failed(DeskFault::NoMemory),
        Err(PortFault::Worn(number)) => return Following::Unheard(number),
    };
    match deliver_all(place, now, &listening, outs) {
        Ending::Quiet => Following::Heard {
            ready: false,
            fault: None,
        },
        Ending::Broke => Following::Heard {
            ready: false,
            fault: None,
        },
        Ending::Full => Following::Heard {
            ready: place.ready(now, &listening),
            fault: None,
        },
        Ending::Short => failed(DeskFault::NoMemory),
        Ending::WornOut => failed(DeskFault::Worn(LAST_GENERATION)),
    }
}
