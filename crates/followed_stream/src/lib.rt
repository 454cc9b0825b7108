//! A stream with its consumers, each with the number of messages that are still to be delivered to it, whether or not the stream's limits hold.
#![tactic(auto)]

mod answering;
mod asking;
mod counting;
mod ending;
mod followed;
mod follower;
mod handing;
mod lasting;
mod later;
mod passing;
mod restoring;
mod span;

pub use answering::Acked;
pub use followed::FollowedStream;
pub use follower::Follower;
pub use later::LaterFollowedStream;
pub use span::Span;
