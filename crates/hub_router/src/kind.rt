//! What the router behind the turns stands for.

ghost use Rattle.histories.specs.Entries.{OfRouter};
ghost use Rattle.histories.specs.Lawful.{IsRouterHistory};
ghost use Rattle.hub_router.specs.Kinds.{RouterIs};

use route_core::Router;
use turn_lock::{Lawful, Standing};

/// A router that many share: it stands for the calls that lead to it from an empty one, in which only the seat that opened a session makes calls for
/// it.
pub struct RouterKind;

impl Lawful for RouterKind {
    ghost lawful = { IsRouterHistory };
}

impl Standing<Router> for RouterKind {
    ghost opens = { λ router. OfRouter };

    ghost stands = { RouterIs };

    ghost all_lawful = { λ opening entries router is. (record { router = router; openers = is.0 }, is.1) };
}
