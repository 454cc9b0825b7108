//! What a snapshot tells of a place.

use block_table::Block;
use js_base::{List, Moment, Spot};
use js_model::{Consumer, Id, StreamConfig};

/// A stored message, but for what its block has of it: its subject, header block and payload.
#[derive(Clone, Copy, Debug, PartialEq, Eq)]
pub struct StoredMessage {
    /// Its sequence, from 1.
    pub seq: u64,
    /// When it was stored.
    pub at: Moment,
    /// Where it lies.
    pub spot: Spot,
}

/// What outlives a crash of a stream, and the blocks in which its messages lie.
#[derive(Drop, Debug)]
pub struct SnapshotBody {
    pub made: Moment,
    /// The last moment that the stream has seen.
    pub moment: Moment,
    /// The last sequence that was given, 0 before the first.
    pub last: u64,
    pub config: StreamConfig,
    /// In order of their sequences.
    pub messages: List<StoredMessage>,
    /// The blocks but the one being written, in any order.
    pub older: List<Block>,
    /// The block being written.
    pub writing: Option<Block>,
    /// In order of their adding.
    pub ids: List<Id>,
    /// In order of their names. No pull waits, and each mark is the moment of the consumer's making.
    pub consumers: List<Consumer>,
}

/// What outlives a crash of a place: the incarnation of its stream, or of the last one, 0 before the first; and the stream, if there is one.
#[derive(Drop, Debug)]
pub struct Snapshot {
    pub incarnation: u64,
    pub body: Option<SnapshotBody>,
}
