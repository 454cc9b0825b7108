//! The records of one event or of one delivery at a place, as its stream tells them while it is made.
#![tactic(auto)]

mod made;

pub use made::{Made, OwnRecords, TimeRecords};
