//! How a call on one stream ends, by what became of the hold.

ghost use Rattle.std.specs.Prelude.{◌≡◌, None};
ghost use Rattle.api_calls.specs.Names.{name_of};
ghost use Rattle.js_api.specs.Leading.{Makes};
ghost use Rattle.js_api.specs.OneStream.{IsEnded, is_taken};
ghost use Rattle.js_api.specs.Stages.{Ending};
ghost use Rattle.desk_answers.specs.Became.{IsExplained};
ghost use Rattle.desk_ground.specs.Outcomes.{unmade};

use crate::ground::Ground;
use crate::reason::Reason;
use crate::telling::refuse_for;
use js_api::{ApiCall, Became, DeskFault, Outcome};
use js_base::Blob;
use js_model::Reply;

/// A hold that was not made, since memory ran out before it.
pub fn unmade() -> Outcome
    ensures value { result ≡ unmade }
{
    Outcome {
        became: Became::Nothing,
        ready: false,
        fault: Some(DeskFault::NoMemory),
    }
}

/// Lets go of what a hold came to. The prover writes this out case by case wherever it stands, so it stands here alone.
pub fn let_go(_outcome: Outcome) {}

/// Whether somebody took what was asked.
fn is_taken(reply: &Reply) -> bool
    ensures value { result ≡ is_taken reply.now }
{
    !matches!(reply, Reply::Nobody)
}

/// Ends a call that goes on after its hold: the stream answered, or the server answers why it did not.
fn end_told<G: Ground>(
    ground: &mut G,
    call: ApiCall,
    to: &Option<Blob>,
    became: &Became,
) -> Result<bool, DeskFault>
    requires explained { IsExplained None became.now }
    ensures made { Makes G.made (IsEnded (name_of call) to.now became.now result) ground.old ground.new }
    ensures setting { G.setting ground.new ≡ G.setting ground.old }
    ensures phase { G.phase ground.new ≡ G.phase ground.old }
{
    match became {
        Became::Made(reply) => Ok(is_taken(reply)),
        Became::Unsaid { refused: _ } => unreachable!(),
        Became::Ticked => unreachable!(),
        Became::Nothing => unreachable!(),
        Became::Broke { stream: _ } => refuse_for(ground, call, to, Reason::StoreFault),
        Became::Stopped { stream: _ } => refuse_for(ground, call, to, Reason::StreamStopped),
        Became::Gone => refuse_for(ground, call, to, Reason::NoStream),
    }
}

/// Ends a call on a stream.
pub fn end_call<G: Ground>(
    ground: &mut G,
    call: ApiCall,
    to: &Option<Blob>,
    outcome: &Outcome,
) -> Result<bool, DeskFault>
    requires explained { IsExplained outcome.now.fault outcome.now.became }
    ensures made { Makes G.made (Ending outcome.now.fault (IsEnded (name_of call) to.now outcome.now.became) result) ground.old ground.new }
    ensures setting { G.setting ground.new ≡ G.setting ground.old }
    ensures phase { G.phase ground.new ≡ G.phase ground.old }
{
    match outcome.fault {
        Some(fault) => Err(fault),
        None => end_told(ground, call, to, &outcome.became),
    }
}
