//! Which changes a place hands over to be recorded; no program calls it.
#![tactic(auto)]

mod laws;

pub use laws::law_records;
