//! Tests of `serve` over a door and volumes in memory: each call of a hub, two workers of which one is held, a stream whose volume waits, what a later
//! connection reads back, what a run tells that it found, how many connections are accepted, and each status that memory can come to.
#![tactic(auto)]

#[cfg(test)]
mod accepting;
#[cfg(test)]
mod conversing;
#[cfg(test)]
mod doors;
#[cfg(test)]
mod faulty_volumes;
#[cfg(test)]
mod gates;
#[cfg(test)]
mod holding;
#[cfg(test)]
mod noticing;
#[cfg(test)]
mod reading;
#[cfg(test)]
mod runs;
#[cfg(test)]
mod talks;
#[cfg(test)]
mod waiting;
