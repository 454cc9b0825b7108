//! What a place is asked.

use crate::ack::{Ack, Ask};
use crate::consumer_config::ConsumerConfig;
use crate::stream_config::StreamConfig;
use js_base::Blob;

/// What a publish asks of the stream by its headers, by JetStream's publish headers. An empty value is none.
#[derive(Drop, Debug, PartialEq, Eq)]
pub struct Wants {
    /// The first header of an expected sequence that is no decimal below 2^62.
    pub bad: Option<Blob>,
    /// `Nats-Msg-Id`, or empty.
    pub id: Blob,
    /// `Nats-Expected-Stream`.
    pub stream: Option<Blob>,
    /// `Nats-Expected-Last-Sequence`.
    pub last: Option<u64>,
    /// `Nats-Expected-Last-Subject-Sequence`.
    pub subject_last: Option<u64>,
    /// `Nats-Expected-Last-Msg-Id`.
    pub last_id: Option<Blob>,
}

/// A message for a stream.
#[derive(Drop, Debug, PartialEq, Eq)]
pub struct Publish {
    pub reply: Option<Blob>,
    pub subject: Blob,
    pub headers: Blob,
    pub payload: Blob,
    pub wants: Wants,
}

/// Which message is read.
#[derive(Drop, Debug, PartialEq, Eq)]
pub enum GetBy {
    Seq(u64),
    LastBySubject(Blob),
}

/// What is asked. Each request that can be answered has the subject for its answer, if one is given.
#[derive(Drop, Debug)]
pub enum What {
    /// Makes the stream.
    Make {
        reply: Option<Blob>,
        config: StreamConfig,
    },
    /// Replaces its configuration.
    Change {
        reply: Option<Blob>,
        config: StreamConfig,
    },
    /// Drops it.
    Drop {
        reply: Option<Blob>,
    },
    Publish(Publish),
    /// Removes the messages that the filter matches: those below a sequence, and all but a number of the last ones.
    /// An empty filter matches all.
    Purge {
        reply: Option<Blob>,
        filter: Blob,
        below: Option<u64>,
        keep: Option<u64>,
    },
    /// Removes one message.
    Delete {
        reply: Option<Blob>,
        seq: u64,
    },
    /// Makes a consumer. An update asks for one that is there.
    MakeConsumer {
        reply: Option<Blob>,
        name: Blob,
        config: ConsumerConfig,
        update: bool,
    },
    DropConsumer {
        reply: Option<Blob>,
        name: Blob,
    },
    Ack {
        reply: Option<Blob>,
        ack: Ack,
    },
    /// Asks a consumer for messages. A body of no form is `None`.
    Pull {
        reply: Option<Blob>,
        consumer: Blob,
        ask: Option<Ask>,
    },
    /// Lets time pass.
    Tick,
    StreamInfo {
        reply: Option<Blob>,
    },
    MessageGet {
        reply: Option<Blob>,
        by: GetBy,
    },
    ConsumerInfo {
        reply: Option<Blob>,
        name: Blob,
    },
    /// The consumers' names from a place in their order on.
    ConsumerNames {
        reply: Option<Blob>,
        offset: u64,
    },
    /// Their informations.
    ConsumerList {
        reply: Option<Blob>,
        offset: u64,
    },
}

/// An event for the stream with this incarnation, or for the place where it is to be made.
#[derive(Drop, Debug)]
pub struct Event {
    pub incarnation: u64,
    pub what: What,
}
