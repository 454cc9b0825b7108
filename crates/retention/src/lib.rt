//! What the limits of a stream drop next, and what its retention keeps.
#![tactic(auto)]

mod laws;
mod limits;
mod needing;

pub use laws::{law_trimmed, law_within, law_without};
pub use limits::{max_messages, over_limits, over_limits_on};
pub use needing::{is_kept, needed};
