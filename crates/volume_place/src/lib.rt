//! A place that keeps its stream on a volume, so that it outlives a crash.
#![tactic(auto)]

mod asking;
mod committing;
mod firm;
mod lengths;
mod outputs;
mod preparing;
mod room;
mod since;
mod tail;
mod volume_place;

pub use volume_place::VolumePlace;
