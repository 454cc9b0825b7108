//! Acknowledgements of deliveries, and pull requests: they are read from subjects and bodies.
#![tactic(auto)]

mod ask;
mod body;
mod fault;
mod laws;
mod reading;
mod subject;

pub use ask::read_ask;
pub use fault::AckFault;
pub use laws::law_spelled;
pub use reading::read_ack;
