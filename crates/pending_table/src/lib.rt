//! The deliveries of a consumer that wait for their acknowledgement.
#![tactic(auto)]

mod asked;
mod bounds;
mod listing;
mod outlook;
mod table;
mod tree;

pub use table::PendingTable;
