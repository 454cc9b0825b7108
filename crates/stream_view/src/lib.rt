//! A stream as others look at it: its configuration, its numbers, and its messages without header blocks and payloads.
#![tactic(auto)]

mod counts;
mod head;
mod view;

pub use counts::Counts;
pub use head::Head;
pub use view::View;
