//! What the headers of a publish ask of its stream, by the publish headers of JetStream.
#![tactic(auto)]

mod reading;

pub use reading::read_wants;
