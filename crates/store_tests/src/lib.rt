//! Tests of a store of a volume, of what no clause says: that its calls succeed where memory suffices, how messages fill block files, and what is found after a
//! call that failed or a crash. There is one file for each thing that is tested, and nothing else.
#![tactic(auto)]

#[cfg(test)]
mod alternations;
#[cfg(test)]
mod block_files;
#[cfg(test)]
mod missing;
#[cfg(test)]
mod rooms;
#[cfg(test)]
mod store_calls;
#[cfg(test)]
mod stores;
#[cfg(test)]
mod updates;
