//! What the batches of a log give, read as records: what its place was when the log was begun, and each change since.
#![tactic(auto)]

mod batch;
mod beginning;
mod fault;
mod held;
pub mod laws;
mod log;
mod made;
mod spots;

pub use fault::ReadFault;
pub use log::{LogRead, read_log};
