//! Who listens for the push consumers of a place.

ghost use Rattle.std.specs.Prelude.{◌≡◌, ◌++◌, ◌∷◌, [], length, map, OnOk, IfOk, IfErr};
ghost use Rattle.js_api.specs.Holding.{listening_of};
ghost use Rattle.place_engine.specs.Pushes.{push_of, pushes_in};
ghost use Rattle.desk_hold.specs.Hearing.{Hears};
ghost use Rattle.desk_hold.specs.Ports.{readings_of};

use crate::port::{Port, PortFault};
use js_base::List;
use js_model::Listening;
use place_engine::{Place, Push};
use std::alloc::Global;

/// Asks the port who listens for the push consumers, unless there are none, and gives the names of those for whom somebody does, in order. An `Err`
/// tells why it was not told of all of them, or that memory ran out for the names.
pub fn hear<P: Place, R: Port>(
    alloc: Global,
    place: &P,
    port: &mut R,
) -> Result<Listening, PortFault>
    ensures hears { Hears R.routes R.worn result (P.seen place.now).place.state port.old port.new }
{
    let pushes = pushes_of(alloc, place)?;
    if pushes.is_empty() {
        return Ok(List::new(alloc));
    }
    match port.hear(alloc, pushes.as_slice()) {
        Ok(told) => listening(alloc, pushes.as_slice(), told.as_slice()),
        Err(fault) => Err(fault),
    }
}

/// The push consumers of a place, in the order of their names. An `Err` is want of memory.
fn pushes_of<P: Place>(alloc: Global, place: &P) -> Result<Vec<Push<'_>>, PortFault>
    ensures ok { IfOk result (λ pushes. pushes.items ≡ map push_of (pushes_in (P.seen place.now).place.state)) }
    ensures err { IfErr result (λ fault. fault ≡ PortFault.NoMemory) }
{
    let mut pushes = Vec::new(alloc);
    let mut at = 0;
    while let Some(push) = place.push(at) {
        pushes.push(push).map_err(|_| PortFault::NoMemory)?;
        at += 1;
    }
    Ok(pushes)
}

/// The names of those push consumers of which it was told that somebody listens. An `Err` is want of memory.
fn listening(alloc: Global, pushes: &[Push<'_>], told: &[bool]) -> Result<Listening, PortFault>
    requires each { length told.now ≡ length pushes.now }
    ensures ok { IfOk result (λ listening. listening ≡ listening_of (readings_of pushes.now told.now)) }
    ensures err { IfErr result (λ fault. fault ≡ PortFault.NoMemory) }
{
    let mut listening = List::new(alloc);
    for (at, push) in pushes.iter().enumerate() {
        if told[at] {
            note(&mut listening, push)?;
        }
    }
    Ok(listening)
}

/// Adds the name of the push consumer. An `Err` adds nothing.
fn note(listening: &mut Listening, push: &Push<'_>) -> Result<(), PortFault>
    ensures ok { OnOk result (listening.new ≡ listening.old ++ push.now.name ∷ []) }
    ensures err { IfErr result (λ fault. fault ≡ PortFault.NoMemory) }
{
    let name = push.name.clone().map_err(|_| PortFault::NoMemory)?;
    listening.push(name).map_err(|_| PortFault::NoMemory)
}
