//! A place for one stream: each event makes one step of the stream's rules.
#![tactic(auto)]

mod faults;
mod place;
mod push;

pub use faults::{Left, OpenFault, PlaceFault};
pub use place::Place;
pub use push::Push;
