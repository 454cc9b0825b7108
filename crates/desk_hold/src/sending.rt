//! The sending of outputs.

ghost use Rattle.std.specs.Prelude.{◌≡◌};
ghost use Rattle.desk_hold.specs.Ports.{Sends, sending_by};
ghost use Rattle.desk_hold.specs.Outcomes.{fault_of};

use crate::port::{Port, PortFault};
use js_api::DeskFault;
use js_base::Out;

/// Sends each output in order. One that finds no memory does not keep the next from being tried, and an `Err` tells of it; one for which no turn
/// is left does.
pub fn send_all<R: Port>(port: &mut R, outs: &[Out]) -> Result<(), PortFault>
    ensures sends { Sends R.routes R.worn port.old outs.now (sending_by result) port.new }
{
    let mut sent = Ok(());
    for out in outs {
        match port.send(out) {
            Ok(()) => {}
            Err(PortFault::NoMemory) => sent = Err(PortFault::NoMemory),
            Err(PortFault::Worn(number)) => return Err(PortFault::Worn(number)),
        }
    }
    sent
}

/// Why a call ends with a hold whose outputs were sent so, if its answer is unsaid or not.
pub fn fault_of(sent: Result<(), PortFault>, unsaid: bool) -> Option<DeskFault>
    ensures value { result ≡ fault_of (sending_by sent) unsaid }
{
    match sent {
        Ok(()) => {
            if unsaid {
                Some(DeskFault::NoMemory)
            } else {
                None
            }
        }
        Err(PortFault::NoMemory) => Some(DeskFault::NoMemory),
        Err(PortFault::Worn(number)) => Some(DeskFault::Worn(number)),
    }
}
