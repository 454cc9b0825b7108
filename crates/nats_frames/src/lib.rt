//! The NATS client protocol as bytes: what a client asks is read from pieces, and what the server answers is written.
#![tactic(auto)]

mod decoder;
mod fault;
mod field;
mod front;
pub mod laws;
mod length;
mod line;
mod look;
mod op;
mod shape;
mod verb;
mod write;

pub use decoder::Decoder;
pub use js_base::Frame;
pub use length::frame_len;
pub use op::{FrameFault, Op};
pub use write::write_frame;
