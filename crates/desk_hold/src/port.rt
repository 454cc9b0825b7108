//! The router as a hold reaches it.

ghost use Rattle.std.specs.Prelude.{◌≡◌, ℕ};
ghost use Rattle.js_model.specs.Router.{Interest, IsRoute, Listens, RouteCall, RouteTold};
ghost use Rattle.desk_hold.specs.Ports.{HearsBy, SendsBy};

use js_base::{List, Out};
use place_engine::Push;
use route_core::Router;
use std::alloc::Global;
use thiserror::Error;

/// Why a port does not send, or does not tell who listens.
#[derive(Clone, Copy, Debug, PartialEq, Eq, Error)]
pub enum PortFault {
    #[error("out of memory")]
    NoMemory,
    /// The numbers of the router's turns are used up: this is the last one.
    #[error("no turn is left after {0}")]
    Worn(u64),
}

/// A hold sends by a port what its place sends, and asks it who listens. A router is the port of a desk that has it alone.
pub trait Port {
    /// This call of the router led from the one port to the other.
    ghost routes: { Self → RouteCall → RouteTold → Self → Type 0 };

    /// The router was not called, since the numbers of its turns are used up, and this is the last one.
    ghost worn: { Self → ℕ → Self → Type 0 };

    /// Hands a message of the server itself to the subscriptions. One that finds no memory goes to nobody.
    fn send(&mut self, out: &Out) -> Result<(), PortFault>
        ensures sends { SendsBy routes worn self.old out.now result self.new };

    /// Whether somebody listens for each of these push consumers, in order: to its deliver subject, as a member of its deliver group if it has one.
    /// An `Err` tells why it was told of the first ones alone, or of none.
    fn hear(&mut self, alloc: Global, pushes: &[Push<'_>]) -> Result<List<bool>, PortFault>
        ensures hears { HearsBy routes worn pushes.now result self.old self.new };
}

impl Port for Router {
    ghost routes = { λ old call told new. IsRoute old call told new };

    ghost worn = { λ old number new. ⊥ };

    fn send(&mut self, out: &Out) -> Result<(), PortFault> {
        match self.publish(out, None) {
            Ok(_) => Ok(()),
            Err(_) => Err(PortFault::NoMemory),
        }
    }

    fn hear(&mut self, alloc: Global, pushes: &[Push<'_>]) -> Result<List<bool>, PortFault> {
        hear_each(alloc, self, pushes)
    }
}

/// Asks the router for each push consumer whether somebody listens for it. An `Err` is want of memory.
fn hear_each(alloc: Global, router: &Router, pushes: &[Push<'_>]) -> Result<List<bool>, PortFault>
    ensures hears { HearsBy IsRoute (λ old number new. ⊥) pushes.now result router.now router.now }
{
    let mut told = List::new(alloc);
    for push in pushes {
        let heard = is_heard(router, push);
        if told.push(heard).is_err() {
            return Err(PortFault::NoMemory);
        }
    }
    Ok(told)
}

/// Whether somebody listens to the push consumer's deliver subject, as a member of its deliver group if there is one.
fn is_heard(router: &Router, push: &Push<'_>) -> bool
    ensures heard { IsRoute router.now (Interest push.now.subject push.now.group) (Listens result) router.now }
{
    let group = match push.group {
        Some(group) => Some(group.as_slice()),
        None => None,
    };
    router.interest(push.subject.as_slice(), group)
}
