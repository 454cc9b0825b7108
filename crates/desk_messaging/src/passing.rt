//! Time passes at a place.

ghost use Rattle.std.specs.Prelude.{◌≡◌, IfSome};
ghost use Rattle.js_api.specs.Answering.{Done, Settled, done, settled};
ghost use Rattle.js_api.specs.Calls.{Answered, Passes, PassesAt, Settles, Ticks};
ghost use Rattle.js_api.specs.Leading.{Makes};
ghost use Rattle.desk_ground.specs.Grounds.{IsWithin, Outside};

use desk_ground::{Ground, let_go};
use js_api::DeskFault;
use js_base::Moment;
use js_model::{PlaceAt, What};

/// Lets time pass at a place, and answers whether a consumer is ready there then.
fn pass_at<G: Ground>(ground: &mut G, at: PlaceAt, now: Moment) -> Result<bool, DeskFault>
    requires within { IsWithin (G.setting ground.old) at }
    ensures made { Makes G.made (PassesAt now at result) ground.old ground.new }
    ensures setting { G.setting ground.new ≡ G.setting ground.old }
    ensures phase { G.phase ground.new ≡ G.phase ground.old }
{
    let outcome = ground.hold(at, What::Tick, now);
    let fault = outcome.fault;
    let ready = outcome.ready;
    let_go(outcome);
    match fault {
        Some(fault) => Err(fault),
        None => Ok(ready),
    }
}

/// Lets time pass at a place, if there is one.
fn pass<G: Ground>(ground: &mut G, found: Option<PlaceAt>, now: Moment) -> Result<bool, DeskFault>
    requires within { IfSome found (IsWithin (G.setting ground.old)) }
    ensures made { Makes G.made (Passes now found result) ground.old ground.new }
    ensures setting { G.setting ground.new ≡ G.setting ground.old }
    ensures phase { G.phase ground.new ≡ G.phase ground.old }
{
    match found {
        Some(at) => pass_at(ground, at, now),
        None => Ok(false),
    }
}

/// Lets time pass at the next used place after that of the last tick, in cyclic order. It does nothing if no place is used.
pub fn tick<G: Ground>(ground: &mut G, now: Moment) -> Result<(), DeskFault>
    requires outside { G.phase ground.old ≡ Outside }
    ensures made { Makes G.made (Answered (λ (u : Unit {0}). Done) (Ticks now) (done result)) ground.old ground.new }
    ensures setting { G.setting ground.new ≡ G.setting ground.old }
    ensures phase { G.phase ground.new ≡ Outside }
{
    let found = ground.turn()?;
    let _ = pass(ground, found, now)?;
    Ok(())
}

/// Lets time pass at the place of the last hold, and answers whether a consumer is ready there then. Before the first hold it does nothing.
pub fn settle<G: Ground>(ground: &mut G, now: Moment) -> Result<bool, DeskFault>
    requires outside { G.phase ground.old ≡ Outside }
    ensures made { Makes G.made (Answered Settled (Settles now) (settled result)) ground.old ground.new }
    ensures setting { G.setting ground.new ≡ G.setting ground.old }
    ensures phase { G.phase ground.new ≡ Outside }
{
    let last = ground.resume();
    pass(ground, last, now)
}
