//! A stream with its consumers, as its limits and its retention keep it, and what its consumers are asked.
#![tactic(auto)]

mod ageing;
mod calls;
mod giving_up;
mod lasting;
mod limits;
mod listing;
mod releasing;
mod removing;
mod restoring;
mod rules;
mod serving;
mod showing;
mod state;
mod telling;
mod trimming;

pub use calls::{Acknowledged, NewConsumer};
pub use state::StreamState;
