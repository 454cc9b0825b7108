//! What a volume may hold of a place: whether it is sound and within a volume's bounds, and whether a stream can be restored to it.
#![tactic(auto)]

mod bounds;
mod consumers;
mod ids;
mod keeping;
mod limits;
mod matching;
mod openable;
mod sequences;
mod storable;
mod times;

pub use openable::is_openable;
pub use storable::is_storable;
