//! The router: it carries messages between the sessions of one owner, by the NATS client protocol.
#![tactic(auto)]

mod delivery;
mod dispatch;
mod groups;
mod measured_frame;
mod open_sessions;
mod parcel;
mod roused;
mod router;
mod session;
mod subscription;
mod table;
mod waiting;

pub use roused::Roused;
pub use router::Router;
