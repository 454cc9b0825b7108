//! The records of a place's changes.

use js_base::{Blob, List, Moment};
use js_model::{ConsumerConfig, StreamConfig};

/// A record of one change of what outlives a crash of a place: one variant for each kind of record in a volume's log.
#[derive(Drop, Debug)]
pub enum Effect {
    /// A new stream, which is empty.
    MakeStream {
        incarnation: u64,
        made: Moment,
        config: StreamConfig,
    },
    /// Another configuration.
    ChangeStream {
        config: StreamConfig,
    },
    /// The place is vacant, and keeps the incarnation of its stream.
    DropStream,
    /// A message was stored under the next sequence, with its id, which is empty if there is none.
    PutHere {
        seq: u64,
        at: Moment,
        id: Blob,
        subject: Blob,
        headers: Blob,
        payload: Blob,
    },
    /// The next sequence was given to a message that is not kept. Its id is.
    Skip {
        seq: u64,
        at: Moment,
        id: Blob,
    },
    /// The messages of a range of sequences go, both ends too, with what consumers hold of them.
    Remove {
        low: u64,
        high: u64,
    },
    /// A new consumer: where it begins.
    MakeConsumer {
        name: Blob,
        made: Moment,
        config: ConsumerConfig,
        cursor: u64,
        picks: List<u64>,
    },
    DropConsumer {
        name: Blob,
    },
    /// A message was sent to a consumer: how often by now, when it may be sent again, and its consumer sequence.
    Deliver {
        name: Blob,
        seq: u64,
        count: u64,
        due: Moment,
        dseq: u64,
    },
    /// The deliveries of a range of sequences ended, both ends too, and those that were given up.
    Acked {
        name: Blob,
        low: u64,
        high: u64,
    },
    /// A delivery that waits may be made again at another moment.
    Due {
        name: Blob,
        seq: u64,
        due: Moment,
    },
    /// What was delivered as often as it may be and is due by a moment is given up.
    GivenUp {
        name: Blob,
        moment: Moment,
    },
    /// The moment that the stream has seen, by which ids are forgotten.
    Now {
        moment: Moment,
    },
}
