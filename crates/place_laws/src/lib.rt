//! What the calls of a place rest on; no program calls it. They make a run of the stream-and-consumer machine, so that the laws of the machine hold of it.
#![tactic(auto)]

mod laws;

pub use laws::{law_calls, law_ready};
