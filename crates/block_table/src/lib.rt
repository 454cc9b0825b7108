//! Where the stored messages of a stream lie in the blocks of a volume, how far each block is written, and where the next message goes.
#![tactic(auto)]

mod block;
mod counts;
mod ends;
mod fault;
pub mod laws;
mod messages;
mod placed;
mod placing;
mod restoring;
mod table;

pub use block::Block;
pub use fault::PutFault;
pub use placed::Placed;
pub use placing::Placing;
pub use table::BlockTable;
