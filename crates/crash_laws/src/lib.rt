//! What a crash may leave of all that was made at a place; no program calls it.
#![tactic(auto)]

mod laws;

pub use laws::{law_opened, law_outlasting, law_timed};
