//! What stands in the histories that callers share: entries, opening states, which lists of entries are lawful, and what one caller has seen of them.
#![tactic(auto)]

mod laws;
mod words;

pub use laws::{law_grows, law_own};
pub use words::{Past, Start};
