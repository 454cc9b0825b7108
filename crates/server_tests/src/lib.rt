//! Tests of the server that no row can be: what the command lines of `serve` say, memory that runs out at its door or link, an input of a gigabyte, what
//! lies on volumes, and volumes that fail or stop.
#![tactic(auto)]

#[cfg(test)]
mod command_line;
#[cfg(test)]
mod deeds;
#[cfg(test)]
mod failed_sync;
#[cfg(test)]
mod failing;
#[cfg(test)]
mod full_disk;
#[cfg(test)]
mod greatest_input;
#[cfg(test)]
mod redelivery;
#[cfg(test)]
mod runs;
#[cfg(test)]
mod scripts;
#[cfg(test)]
mod starved;
#[cfg(test)]
mod stops;
#[cfg(test)]
mod volumes;
