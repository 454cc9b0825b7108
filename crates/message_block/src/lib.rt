//! Message blocks: files of a volume with the bytes of messages, each at its spot.
#![tactic(auto)]

mod block;
mod fault;

pub use block::{drop_block, read, write};
pub use fault::BlockFault;
