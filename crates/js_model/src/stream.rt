//! What a place holds: a stream, or nothing.

use crate::consumer::Consumer;
use crate::stream_config::StreamConfig;
use js_base::{Blob, List, Moment};

/// A stored message.
#[derive(Drop, Debug, PartialEq, Eq)]
pub struct Message {
    /// Its sequence, from 1.
    pub seq: u64,
    /// When it was stored.
    pub at: Moment,
    pub subject: Blob,
    /// The header block, empty if there is none.
    pub headers: Blob,
    pub payload: Blob,
}

impl Message {
    ghost use Rattle.std.specs.Prelude.{◌≡◌};
    ghost use Rattle.js_model.specs.Streams.{size};

    /// The size that counts against its stream's `max_bytes`: the bytes of subject, header block and payload, and 40.
    pub fn size(&self) -> u128
        ensures value { result ≡ size self.now }
    {
        self.subject.len() as u128 + self.headers.len() as u128 + self.payload.len() as u128 + 40
    }
}

/// A message id of the duplicate window, with the sequence and the moment at which it was added.
#[derive(Drop, Debug, PartialEq, Eq)]
pub struct Id {
    pub id: Blob,
    pub seq: u64,
    pub at: Moment,
}

/// A stream and its consumers.
#[derive(Drop, Debug)]
pub struct Stream {
    /// The number of this stream among those of its place.
    pub incarnation: u64,
    pub made: Moment,
    pub config: StreamConfig,
    /// In order of their sequences.
    pub messages: List<Message>,
    /// The last sequence that was given, 0 before the first.
    pub last: u64,
    /// The last moment that the stream has seen.
    pub moment: Moment,
    /// In order of their adding.
    pub ids: List<Id>,
    /// In order of their names.
    pub consumers: List<Consumer>,
}

/// What a place holds.
#[derive(Drop, Debug)]
pub enum State {
    /// No stream, with the incarnation of the last one, 0 before the first.
    Vacant(u64),
    Live(Stream),
}
