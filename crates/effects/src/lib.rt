//! By which records what outlives a crash of a place changes, and what a volume holds of it.
#![tactic(auto)]

mod durable;
mod effect;
mod laws;

pub use durable::{Body, Durable};
pub use effect::Effect;
pub use laws::{law_effects, law_in_time};
