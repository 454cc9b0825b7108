//! The ranges of sequences that leave a stream.
#![tactic(auto)]

mod range;
mod removals;

pub use range::Range;
pub use removals::Removals;
