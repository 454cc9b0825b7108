//! The catalog: which place holds which stream, by name and by subjects.
#![tactic(auto)]

mod catalog;
mod conflict;
mod entry;
mod listing;
mod names;
mod used;

pub use catalog::Catalog;
pub use conflict::first_conflict;
