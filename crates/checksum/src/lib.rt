//! The checksum CRC-32C, which tells a damaged run of bytes from a whole one.
#![tactic(auto)]

mod crc;
pub mod laws;

pub use crc::{Checksum, crc32c};
