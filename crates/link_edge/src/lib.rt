//! The outside of the server: links to clients, the doors that they come through, sinks, clocks, gates
//! and notices. Each is a trait with a meaning, an implementation in memory that records all that
//! happened to it, and an adapter over the real thing.
#![tactic(auto)]

mod answers;
mod calls;
mod clock;
mod door;
mod failings;
mod gate;
mod gates;
mod link;
mod mem_clock;
mod mem_door;
mod mem_link;
mod mem_notice;
mod mem_sink;
mod notice;
mod pipe;
mod script;
mod sink;
mod system_clock;
mod unnoticed;
mod writer_sink;

pub use answers::{Accept, Accepted, Answer, Give, Put, Take};
pub use clock::Clock;
pub use door::Door;
pub use failings::{Failings, Starved};
pub use gate::Gate;
pub use gates::{HoldGate, OpenGate};
pub use link::Link;
pub use mem_clock::MemClock;
pub use mem_door::{Knock, MemDoor};
pub use mem_link::MemLink;
pub use mem_notice::MemNotice;
pub use mem_sink::MemSink;
pub use notice::{Found, Notice};
pub use pipe::{PipeDoor, PipeLink};
pub use script::Said;
pub use sink::Sink;
pub use system_clock::SystemClock;
pub use unnoticed::Unnoticed;
pub use writer_sink::WriterSink;
