//! Why a desk was not opened, what is left of one, and why a call of its router is refused.

ghost use Rattle.std.specs.Prelude.{◌≡◌};
ghost use Rattle.desk_places.specs.Faults.{desk_answer, desk_fault, sent};

use js_api::DeskFault;
use js_model::RouteFault;
use place_engine::{OpenFault, PlaceFault};

/// The greatest number that a session can have.
const LAST_SESSION: u64 = (1 << 62) - 1;

/// Why a desk was not opened. The volumes are given back in their order.
#[derive(Drop, Debug)]
pub enum HubFault<V> {
    /// The place of this number, the lowest one that was not opened, was not for this reason.
    Open {
        place: u32,
        fault: OpenFault,
        vols: Vec<V>,
    },
    /// The streams of these two places share a name or have subjects that meet: the lowest place that has such another behind it, and the lowest of those.
    /// Each place had been opened.
    Conflict {
        first: u32,
        second: u32,
        vols: Vec<V>,
    },
    /// Memory ran out beside the places. A place that finds none is told as `Open`.
    NoMemory {
        vols: Vec<V>,
    },
}

/// What is left of a desk: its volumes, in their order, and the first place whose flush failed, with its answer.
#[derive(Drop, Debug)]
pub struct Closed<V> {
    pub vols: Vec<V>,
    pub failed: Option<(u32, PlaceFault)>,
}

/// Why a call of a desk is refused, by why its router refused it.
fn desk_fault(fault: RouteFault) -> DeskFault
    ensures value { result ≡ desk_fault fault }
{
    match fault {
        RouteFault::NoSession(latest) => DeskFault::NoSession(latest),
        RouteFault::TooManySubs => DeskFault::TooManySubs,
        RouteFault::NoMemory => DeskFault::NoMemory,
        RouteFault::Worn => DeskFault::Worn(LAST_SESSION),
    }
}

/// What a call of a desk answers, by what its router answered.
pub fn desk_answer<T>(answer: Result<T, RouteFault>) -> Result<T, DeskFault>
    ensures value { result ≡ desk_answer answer }
{
    match answer {
        Ok(value) => Ok(value),
        Err(fault) => Err(desk_fault(fault)),
    }
}

/// What the sending of a message answers, by what the router answered.
pub fn sent(answer: Result<u64, RouteFault>) -> Result<(), DeskFault>
    ensures value { result ≡ sent answer }
{
    match answer {
        Ok(_) => Ok(()),
        Err(fault) => Err(desk_fault(fault)),
    }
}
