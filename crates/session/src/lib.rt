//! A session: one connection, from the server's information to its end, over any desk, link and clock.
#![tactic(auto)]

mod asking;
mod collecting;
mod connect;
mod conversation;
mod ending;
mod error_line;
mod gathering;
mod giving;
mod manners;
mod operation;
mod parting;
mod session;
mod stop;
mod ticking;
mod turn;

pub use ending::{Ended, Limits, Refusal};
pub use session::serve_link;
