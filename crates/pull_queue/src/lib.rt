//! The pulls of a consumer that wait for messages, first in, first out.
#![tactic(auto)]

mod fault;
mod front;
mod moments;
mod queue;
mod status;

pub use fault::PullFault;
pub use front::Front;
pub use queue::PullQueue;
