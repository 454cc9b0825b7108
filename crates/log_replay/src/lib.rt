//! What the records of a log have made so far, in structures in which each record that a server writes costs the logarithm of what there is.
#![tactic(auto)]

mod body;
mod changing;
mod consumers;
mod listing;
mod records;
mod removing;
mod replay;
mod restoring;
mod starting;

pub use replay::Replay;
