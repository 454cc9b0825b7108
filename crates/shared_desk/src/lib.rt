//! The desk of many callers, who share the router, the catalog and the places: each has seats behind turns, by which it makes its calls.
#![tactic(auto)]

mod closing;
mod dealt;
mod desk;
mod finding;
mod ground;
mod hub;
mod laws;
mod meeting;
mod opening;
mod pass;
mod row;
mod side;

pub use desk::HubDesk;
pub use ground::HubGround;
pub use hub::Hub;
pub use laws::{law_all, law_numbers};
pub use pass::Pass;
