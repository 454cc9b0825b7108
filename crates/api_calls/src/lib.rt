//! The calls of the JetStream API, and their names.
#![tactic(auto)]

mod call;

pub use call::ApiCall;
