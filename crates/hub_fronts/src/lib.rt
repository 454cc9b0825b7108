//! What a caller of many knows of each lock of its hub, and how the entries of its desk lead it.
#![tactic(auto)]

mod laws;
mod turns;

pub use laws::{law_grown, law_named};
pub use turns::{no_entries, ticket_of};
