//! What lasts of a consumer's deliveries: what is still to be delivered, what waits for its acknowledgement, and what is given up.
#![tactic(auto)]

mod listing;
mod progress;
mod tables;

pub use progress::ConsumerProgress;
