//! A consumer: what it has delivered, what waits for acknowledgement, and who asks for more.

use crate::consumer_config::{AckPolicy, ConsumerConfig};
use js_base::{Blob, List, Moment};

/// A delivery that waits for its acknowledgement.
#[derive(Clone, Copy, Debug, PartialEq, Eq)]
pub struct Pending {
    pub seq: u64,
    /// How often it was delivered.
    pub count: u64,
    /// When it may be delivered again.
    pub due: Moment,
}

/// A pull request that waits for messages.
#[derive(Drop, Debug, PartialEq, Eq)]
pub struct Pull {
    /// Where its messages go.
    pub reply: Blob,
    /// How many messages it still takes.
    pub batch: u64,
    /// How many bytes it still takes.
    pub bytes: Option<u64>,
    /// When it ends.
    pub end: Option<Moment>,
    /// Whether it ends when nothing can be delivered.
    pub no_wait: bool,
    /// In nanoseconds, 0 for none.
    pub heartbeat: u64,
    /// The moment of its asking, its last message or its last heartbeat.
    pub mark: Moment,
}

/// A durable consumer.
#[derive(Drop, Debug)]
pub struct Consumer {
    pub name: Blob,
    pub made: Moment,
    pub config: ConsumerConfig,
    /// The sequences below the cursor that are still to be delivered, ascending.
    pub picks: List<u64>,
    /// The sequence from which on messages are still to be delivered, at most 2^62.
    pub cursor: u64,
    /// The last consumer sequence, 0 before the first delivery.
    pub dseq: u64,
    /// In order of their sequences.
    pub pending: List<Pending>,
    /// The sequences that were delivered as often as they may be and never acknowledged, ascending.
    pub given_up: List<u64>,
    /// In order of their asking.
    pub waiting: List<Pull>,
    /// The moment of its making, its last message or its last heartbeat.
    pub mark: Moment,
}

impl Consumer {
    ghost use Rattle.std.specs.Prelude.{◌≡◌};
    ghost use Rattle.js_model.specs.Streams.{is_push, is_unacknowledged};

    /// Whether it is a push consumer, whose messages go to a subject of its own.
    pub fn is_push(&self) -> bool
        ensures value { result ≡ is_push self.now }
    {
        !self.config.deliver_subject.is_empty()
    }

    /// Whether its deliveries wait for no acknowledgement.
    pub fn is_unacknowledged(&self) -> bool
        ensures value { result ≡ is_unacknowledged self.now }
    {
        match self.config.ack_policy {
            AckPolicy::None => true,
            AckPolicy::All | AckPolicy::Explicit => false,
        }
    }
}
