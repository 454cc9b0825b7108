//! Tests of the volumes and of what lies on them, of what no clause says: which images a volume in memory picks, that calls succeed where memory
//! suffices, and what a folder of the system holds. There is one file for each thing that is tested, and a volume of which nothing is told, for tests.
#![tactic(auto)]

mod blind;

pub use blind::Blind;

#[cfg(test)]
mod append_calls;
#[cfg(test)]
mod blocks;
#[cfg(test)]
mod contents;
#[cfg(test)]
mod damaged_logs;
#[cfg(test)]
mod folder;
#[cfg(test)]
mod locked_folder;
#[cfg(test)]
mod log_rooms;
#[cfg(test)]
mod logs;
#[cfg(test)]
mod rooms;
#[cfg(test)]
mod stopped_appends;
#[cfg(test)]
mod stopped_shutting;
#[cfg(test)]
mod volumes;
