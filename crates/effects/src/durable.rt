//! What a volume holds of a place.

use js_base::{List, Moment};
use js_model::{Consumer, Id, Message, StreamConfig};

/// What outlives a crash of a stream: all but its waiting pulls and the marks of its consumers. In a consumer here no pull waits, and its
/// mark is the moment of its making.
#[derive(Drop, Debug)]
pub struct Body {
    pub made: Moment,
    /// The last moment that the stream has seen.
    pub moment: Moment,
    /// The last sequence that was given, 0 before the first.
    pub last: u64,
    pub config: StreamConfig,
    /// In order of their sequences.
    pub messages: List<Message>,
    /// In order of their adding.
    pub ids: List<Id>,
    /// In order of their names.
    pub consumers: List<Consumer>,
}

/// What outlives a crash of a place: the incarnation of its stream, or of the last one, 0 before the first; and the stream, if there is one.
#[derive(Drop, Debug)]
pub struct Durable {
    pub incarnation: u64,
    pub body: Option<Body>,
}
