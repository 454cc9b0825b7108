//! A snapshot of what outlives a crash of a place, and of where its messages lie: it is read from bytes, and written.
#![tactic(auto)]

mod entries;
mod entry;
mod laws;
mod reading;
mod snapshot;
mod writing;

pub use laws::law_snapshots;
pub use reading::read_snapshot;
pub use snapshot::{Snapshot, SnapshotBody, StoredMessage};
pub use writing::write_snapshot;
