//! Links and doors over TCP. A link's wait for bytes ends early where another thread rings the link's bell.
#![tactic(auto)]

mod accept_fault;
mod bell;
mod belled_socket;
mod pace;
mod rings;
mod tcp_door;
mod tcp_link;
#[cfg(test)]
mod tests;

pub use bell::Bell;
pub use rings::Rings;
pub use tcp_door::TcpDoor;
pub use tcp_link::TcpLink;
