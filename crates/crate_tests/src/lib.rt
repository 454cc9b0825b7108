//! Tests of what no row of `rows/` can show: calls that no program makes yet, the outside as it is, printed faults, and how much is done at once.
//! There is one file for each crate that is tested, and nothing else.
#![tactic(auto)]

#[cfg(test)]
mod blocks;
#[cfg(test)]
mod edge;
#[cfg(test)]
mod fields;
#[cfg(test)]
mod frames;
#[cfg(test)]
mod kept;
#[cfg(test)]
mod replies;
#[cfg(test)]
mod router;
#[cfg(test)]
mod spots;
#[cfg(test)]
mod wants;
#[cfg(test)]
mod words;
