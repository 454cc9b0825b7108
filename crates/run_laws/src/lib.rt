//! What holds of a whole run of the program; no program calls it. The laws of the machine, of all that the run made at one of its places, and what a crash
//! over a run may leave of its volumes.
#![tactic(auto)]

mod crashes;
mod laws;

pub use crashes::{law_run_outlives, law_unopened_holds};
pub use laws::law_run_acked;
