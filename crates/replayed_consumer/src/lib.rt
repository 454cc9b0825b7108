//! One consumer, as the records of a log make it.
#![tactic(auto)]

mod replayed;
mod tables;

pub use replayed::ReplayedConsumer;
