//! A place in memory: the stream of a place, what it answers, and the records that it hands over of each step.
#![tactic(auto)]

mod consumers;
mod durable;
mod informing;
mod live_stream;
mod memory_place;
mod messages;
mod pushes;
mod recording;
mod restoring;
mod sameness;
mod serving;
mod slot;

pub use memory_place::MemoryPlace;
pub use slot::Slot;
