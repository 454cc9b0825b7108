//! What a place answers.

use crate::consumer_config::ConsumerConfig;
use crate::stream::{Message, State};
use crate::stream_config::StreamConfig;
use js_base::{ApiError, Blob, List, Moment, Outs};

/// A stream's information.
#[derive(Drop, Debug)]
pub struct StreamInfo {
    pub config: StreamConfig,
    pub made: Moment,
    pub messages: u64,
    /// The sizes of the messages, together.
    pub bytes: u64,
    /// The first stored sequence. Where nothing is stored, 0 for a stream that never had a message, and else the next sequence.
    pub first_seq: u64,
    /// When the first stored message was stored.
    pub first_at: Option<Moment>,
    pub last_seq: u64,
    /// When the last stored message was stored.
    pub last_at: Option<Moment>,
    pub consumers: u64,
}

/// The numbers of a consumer's information.
#[derive(Clone, Copy, Debug, PartialEq, Eq)]
pub struct Info {
    /// The last consumer sequence.
    pub consumer_seq: u64,
    /// The sequence before the cursor.
    pub stream_seq: u64,
    /// The last sequence up to which nothing waits for an acknowledgement.
    pub ack_floor: u64,
    /// Deliveries that wait for an acknowledgement.
    pub ack_pending: u64,
    /// Messages that are still to be delivered.
    pub pending: u64,
    /// Those among `ack_pending` that were delivered more than once.
    pub redelivered: u64,
    /// Pulls that wait.
    pub waiting: u64,
}

/// A consumer's information.
#[derive(Drop, Debug)]
pub struct ConsumerInfo {
    pub stream: Blob,
    pub name: Blob,
    pub made: Moment,
    pub config: ConsumerConfig,
    pub info: Info,
}

/// What an event is answered.
#[derive(Drop, Debug)]
pub enum Reply {
    Info(StreamInfo),
    Done,
    /// A message was stored with this sequence.
    Published(u64),
    /// Its id was there, with the sequence that it was given first.
    Duplicate(u64),
    /// This many messages were removed.
    Purged(u64),
    ConsumerInfo(ConsumerInfo),
    Message(Message),
    /// How many consumers there are, and the page that was asked for.
    Names {
        total: u64,
        list: List<Blob>,
    },
    /// The same with their informations.
    Infos {
        total: u64,
        list: List<ConsumerInfo>,
    },
    /// An acknowledgement was taken.
    Confirmed,
    /// There is no answer.
    Silent,
    /// Nobody took it.
    Nobody,
    Refused(ApiError),
}

/// What an event answers, what it sends, and what it leaves.
#[derive(Drop, Debug)]
pub struct Answer {
    pub reply: Reply,
    pub outs: Outs,
    pub state: State,
}

/// What a stream answers a publish.
#[derive(Drop, Debug, PartialEq, Eq)]
pub enum Verdict {
    Take,
    /// Its id is in the window, with this sequence.
    Duplicate(u64),
    Refused(ApiError),
}
