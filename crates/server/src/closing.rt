//! The closing of a desk, and the status that it leaves.

ghost use Rattle.std.specs.Prelude.{◌≡◌, option_map};
ghost use Rattle.server.specs.Closing.{closing_line, closing_status, flush_status};
ghost use Rattle.server.specs.Outside.{PrintsLine};

use crate::printing::print_disk_fault;
use crate::serving::Outcome;
use link_edge::Sink;
use place_engine::PlaceFault;

/// The status if the store of a place fails in the closing.
const FAILED: u8 = 4;

/// The status if memory runs out.
const STARVED: u8 = 7;

/// The status of a place that could not be brought to its volume.
fn flush_status(fault: PlaceFault) -> u8
    ensures { result ≡ flush_status fault }
{
    match fault {
        PlaceFault::NoMemory(_) => STARVED,
        PlaceFault::StoreFault | PlaceFault::Stopped(_) | PlaceFault::Gone(_) => FAILED,
        PlaceFault::Worn { .. } => 10,
    }
}

/// The status of a run that came to this outcome, and at whose closing this place could not be brought to its volume, if one could not. If its store failed,
/// and gives the status, that is printed.
pub fn settle<O: Sink>(out: &mut O, outcome: Outcome, failed: Option<(u32, PlaceFault)>) -> u8
    ensures status { result ≡ closing_status outcome.served outcome.status failed }
    ensures printed { PrintsLine (closing_line outcome.status failed) (record { written = O.written out.old; faults = O.faults out.old }) (record { written = O.written out.new; faults = O.faults out.new }) }
{
    let Some((place, fault)) = failed else {
        return outcome.status;
    };
    let flushed = flush_status(fault);
    if outcome.status != 0 {
        return if outcome.served && flushed == STARVED {
            STARVED
        } else {
            outcome.status
        };
    }
    if flushed == FAILED {
        print_disk_fault(out, place);
    }
    flushed
}
