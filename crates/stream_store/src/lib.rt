//! What a volume holds of a place: it is read from the volume's logs and the message blocks that these tell of, and changed by commits, each of which is on the
//! volume whole or not at all.
#![tactic(auto)]

mod alternating;
mod clearing;
mod fault;
mod late;
pub mod laws;
mod logs;
mod missing;
mod reading;
mod reserving;
mod room;
mod rooms;
mod staging;
mod steps;
mod store;
mod writing;

pub use fault::{CommitFault, OpenFault, RoomFault};
pub use room::message_len;
pub use store::Store;
