//! A place of a hub, behind turns: its port at the router, what the place and the port stand for, and a hold on it in one turn.
#![tactic(auto)]

mod holding;
mod kind;
mod laws;
mod next_timers;
mod place;
mod port;

pub use holding::hold_at;
pub use kind::PlaceKind;
pub use laws::law_value;
pub use next_timers::Timers;
pub use place::HubPlace;
pub use port::RouterPort;
