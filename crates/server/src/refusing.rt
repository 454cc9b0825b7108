//! Volumes on which no desk is opened.

ghost use Rattle.std.specs.Prelude.{◌≡◌};
ghost use Rattle.server.specs.Outside.{PrintsLine};
ghost use Rattle.server.specs.Refusing.{open_line, open_status, refused_line, refused_status, vols_of};

use crate::printing::{
    print_conflict, print_damaged, print_disk_fault, print_no_room, print_version,
};
use desk_places::HubFault;
use link_edge::Sink;
use place_engine::OpenFault;

/// Prints why the place of this number was not opened, and returns the status.
fn refuse_place<O: Sink>(out: &mut O, place: u32, fault: OpenFault) -> u8
    ensures status { result ≡ open_status fault }
    ensures printed { PrintsLine (open_line place fault) (record { written = O.written out.old; faults = O.faults out.old }) (record { written = O.written out.new; faults = O.faults out.new }) }
{
    match fault {
        OpenFault::Fault => {
            print_disk_fault(out, place);
            4
        }
        OpenFault::Damaged { file, at } => {
            print_damaged(out, place, file, at);
            5
        }
        OpenFault::UnknownVersion(version) => {
            print_version(out, version, place);
            5
        }
        OpenFault::NoRoom => {
            print_no_room(out, place);
            4
        }
        OpenFault::NoMemory => 7,
    }
}

/// Prints why no desk was opened, and returns the status and the volumes.
pub fn refuse<V, O: Sink>(out: &mut O, fault: HubFault<V>) -> (u8, Vec<V>)
    ensures status { result.0 ≡ refused_status fault }
    ensures vols { result.1.items ≡ vols_of fault }
    ensures printed { PrintsLine (refused_line fault) (record { written = O.written out.old; faults = O.faults out.old }) (record { written = O.written out.new; faults = O.faults out.new }) }
{
    match fault {
        HubFault::Open { place, fault, vols } => (refuse_place(out, place, fault), vols),
        HubFault::Conflict {
            first,
            second,
            vols,
        } => {
            print_conflict(out, first, second);
            (5, vols)
        }
        HubFault::NoMemory { vols } => (7, vols),
    }
}
