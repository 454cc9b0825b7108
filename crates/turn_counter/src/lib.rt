//! A counter behind a lock whose turns go by tickets: what tests and a bench count with.
#![tactic(auto)]

mod counter;
mod counting;
mod threads;

pub use counter::{Counter, Counts, count_on, count_times, look};
pub use counting::{count_alone, join_two, meet_and_look};
pub use threads::{count_both, count_four};
