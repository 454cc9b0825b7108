//! One hold on a place, for a desk that has its router alone and for one that shares it: an event is made there, it is answered, and all that this
//! sends goes to the router.
#![tactic(auto)]

mod delivering;
mod following;
mod hearing;
mod holding;
mod port;
mod sending;
mod stepping;

pub use holding::hold_on;
pub use port::{Port, PortFault};
