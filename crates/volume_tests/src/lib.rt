//! Tests of a place on a volume in memory: what was brought to it is found again by whoever opens what a crash leaves, what nobody was told of shares commits,
//! a volume that fails stops it, and one that is full refuses what needs room.
#![tactic(auto)]

#[cfg(test)]
mod attempts;
#[cfg(test)]
mod crashes;
#[cfg(test)]
mod deeds;
#[cfg(test)]
mod kept;
#[cfg(test)]
mod room;
#[cfg(test)]
mod waiting;
