//! A stream's messages by their sequences, in memory.
#![tactic(auto)]

mod listing;
mod store;

pub use store::MessageStore;
