//! What waits for a session is gathered, after an operation or a tick.

ghost use Rattle.std.specs.Prelude.{◌≡◌, true};
ghost use Rattle.session.specs.Settling.{Gathers, SettlesOnce};

use crate::collecting::collect_all;
use crate::stop::Stop;
use js_api::Desk;
use js_base::Moment;

/// How many settles there are at most.
const ROUNDS: u32 = 65_536;

/// Lets time pass at the place of the last hold, and adds the bytes of what waits by then: whether a consumer was ready there.
fn settle_once<D: Desk>(desk: &mut D, now: Moment, into: &mut Vec<u8>) -> Result<bool, Stop>
    requires is_open { (D.client desk.old).is_open ≡ true }
    ensures settles { SettlesOnce D.made (D.client desk.old) now desk.old desk.new into.old.items into.new.items result }
    ensures client { D.client desk.new ≡ D.client desk.old }
    ensures is_open { (D.client desk.new).is_open ≡ true }
{
    let ready = match desk.settle(now) {
        Ok(ready) => ready,
        Err(fault) => return Err(Stop::from(fault)),
    };
    match collect_all(desk, into) {
        Ok(()) => Ok(ready),
        Err(stop) => Err(stop),
    }
}

/// Gathers what waits for the session, and adds the bytes of it: what waits already, and what waits after each settle, as long as a consumer is
/// ready then, but after so many settles at most. If the session ends as slow or because numbers are used up, what was given until then was added.
pub(crate) fn gather<D: Desk>(desk: &mut D, now: Moment, into: &mut Vec<u8>) -> Result<(), Stop>
    requires is_open { (D.client desk.old).is_open ≡ true }
    ensures gathers { Gathers D.made (D.client desk.old) now desk.old desk.new into.old.items into.new.items result }
    ensures client { D.client desk.new ≡ D.client desk.old }
    ensures is_open { (D.client desk.new).is_open ≡ true }
{
    match collect_all(desk, into) {
        Ok(()) => {}
        Err(stop) => return Err(stop),
    }
    let mut rounds = 0;
    while rounds < ROUNDS {
        match settle_once(desk, now, into) {
            Ok(true) => rounds += 1,
            Ok(false) => return Ok(()),
            Err(stop) => return Err(stop),
        }
    }
    Ok(())
}
