//! The workers of a server of many connections: each serves one link after another over seats of its own at a hub, in a thread of its own.
#![tactic(auto)]

mod beginning;
mod board;
mod doorway;
mod lobby;
mod ringing_desk;
mod serving;
mod ticking;
mod worker;

pub use beginning::Beginning;
pub use doorway::Stop;
pub use serving::{Came, Service, serve_all};
