//! A log in a file of a volume: a list of batches, each of which is there whole or not at all, whenever a crash comes.
#![tactic(auto)]

mod ends;
mod fault;
mod gates;
mod head;
pub mod laws;
mod log;
mod room;
mod staging;
mod starting;
mod sums;

pub use fault::LogFault;
pub use log::GateLog;
pub use staging::Batch;
