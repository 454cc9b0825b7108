//! The calls of a desk outside the JetStream API: those of the session, which the router carries out, the publish to a plain subject, what
//! only a stream answers, and the passing of time.
#![tactic(auto)]

mod hearing;
mod passing;
mod publishing;
mod session;
mod telling;

pub use hearing::{acknowledge, pull};
pub use passing::{settle, tick};
pub use publishing::publish_plain;
pub use session::{close, collect, options, sub, unsub};
pub use telling::tell_untaken;
