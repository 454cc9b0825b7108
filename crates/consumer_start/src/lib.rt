//! Where a new consumer begins, and which message of a stream a filter takes next.
#![tactic(auto)]

mod cursor;
mod picks;
mod starting;
mod taking;

pub use starting::{Start, start_of};
pub use taking::next_taken;
