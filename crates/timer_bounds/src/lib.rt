//! Moments before which no timer fires, as timers are put together.
#![tactic(auto)]

mod moments;

pub use moments::earlier;
