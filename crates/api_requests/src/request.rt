//! What a call of the API asks for.

use js_base::{Blob, Name};
use js_model::{Ask, ConsumerConfig, GetBy, StreamConfig};

/// A call of the JetStream API: one variant for each form of subject, with the names that the subject gives and the fields of its body.
#[derive(Drop, Debug)]
pub enum ApiRequest {
    /// How many streams and consumers there are, and what they hold.
    AccountInfo,
    StreamCreate {
        stream: Name,
        config: StreamConfig,
    },
    StreamUpdate {
        stream: Name,
        config: StreamConfig,
    },
    StreamInfo {
        stream: Name,
    },
    StreamDelete {
        stream: Name,
    },
    /// Removes the messages that the filter matches: those below `seq`, or all but the last `keep`. An empty filter matches all.
    StreamPurge {
        stream: Name,
        filter: Blob,
        seq: Option<u64>,
        keep: Option<u64>,
    },
    /// The names of the streams from a place in their order on; with a pattern, of those that have a subject which meets it.
    StreamNames {
        offset: u64,
        subject: Option<Blob>,
    },
    /// The same with their informations.
    StreamList {
        offset: u64,
        subject: Option<Blob>,
    },
    StreamMsgGet {
        stream: Name,
        by: GetBy,
    },
    StreamMsgDelete {
        stream: Name,
        seq: u64,
    },
    /// Makes a consumer. An update asks for one that is there.
    ConsumerCreate {
        stream: Name,
        consumer: Name,
        config: ConsumerConfig,
        update: bool,
    },
    /// The same by another subject.
    ConsumerDurableCreate {
        stream: Name,
        consumer: Name,
        config: ConsumerConfig,
        update: bool,
    },
    ConsumerInfo {
        stream: Name,
        consumer: Name,
    },
    ConsumerDelete {
        stream: Name,
        consumer: Name,
    },
    /// The names of the stream's consumers from a place in their order on.
    ConsumerNames {
        stream: Name,
        offset: u64,
    },
    /// Their informations.
    ConsumerList {
        stream: Name,
        offset: u64,
    },
    /// Asks a consumer for messages. A text that is no name is that of no stream or consumer, and a body of no form is `None`.
    ConsumerMsgNext {
        stream: Blob,
        consumer: Blob,
        ask: Option<Ask>,
    },
}
