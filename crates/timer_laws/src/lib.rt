//! What a server that waits for the next timer of a stream rests on; no program calls it. The laws of the moments at which time alone changes a stream.
#![tactic(auto)]

mod laws;

pub use laws::{law_bound, law_firing, law_idle, law_rest, law_settled, law_timers};
