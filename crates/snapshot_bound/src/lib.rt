//! What the snapshot of a place may come to: a number of bytes that only what asks for room raises, and by how much it does.
#![tactic(auto)]

mod counts;
mod durable;
mod laws;
mod texts;

pub use counts::{bound_by, ids_length, message_growth};
pub use durable::{fixed_of, held_bound};
pub use laws::law_bounds;
pub use texts::{consumer_counted, consumer_fixed, most_picked, stream_length};
