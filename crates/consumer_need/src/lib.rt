//! Which messages a consumer needs.
#![tactic(auto)]

mod filter;
mod laws;
mod need;

pub use filter::passes;
pub use laws::law_needs;
pub use need::Need;
