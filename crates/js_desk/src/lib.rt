//! The desk of one caller, who owns the router, the catalog and the places.
#![tactic(auto)]

mod solo_desk;
mod solo_ground;

pub use solo_desk::SoloDesk;
