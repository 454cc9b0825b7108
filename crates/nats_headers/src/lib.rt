//! Header blocks of the NATS client protocol: they are checked, read in place, and written for status messages.
#![tactic(auto)]

mod fault;
mod headers;
pub mod laws;
mod line;
mod status;

pub use fault::HeaderFault;
pub use headers::{Headers, is_block, read_headers};
pub use status::write_status;
