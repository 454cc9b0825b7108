//! How a call ends that the catalog refused.

ghost use Rattle.std.specs.Prelude.{◌≡◌};
ghost use Rattle.api_calls.specs.Names.{name_of};
ghost use Rattle.js_api.specs.Leading.{Makes};
ghost use Rattle.desk_ground.specs.Grounds.{IsTold};
ghost use Rattle.desk_streams.specs.Refusing.{IsRefused};

use desk_ground::{Ground, refuse};
use js_api::{ApiCall, DeskFault};
use js_base::Blob;
use js_model::CatalogFault;

/// Ends a call that the catalog refused, or for which it found no memory.
pub fn end_refused<G: Ground>(
    ground: &mut G,
    call: ApiCall,
    to: &Option<Blob>,
    fault: CatalogFault,
) -> Result<bool, DeskFault>
    requires text { IsTold fault }
    ensures made { Makes G.made (IsRefused (name_of call) to.now fault result) ground.old ground.new }
    ensures setting { G.setting ground.new ≡ G.setting ground.old }
    ensures phase { G.phase ground.new ≡ G.phase ground.old }
{
    match fault {
        CatalogFault::Refused(refusal) => refuse(ground, call.name(), to, refusal),
        CatalogFault::NoMemory => Err(DeskFault::NoMemory),
    }
}
