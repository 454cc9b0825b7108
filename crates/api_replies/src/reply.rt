//! What a call of the API is answered.

use js_base::{ApiError, Blob, List};
use js_model::{ConsumerInfo, Message, StreamInfo};

/// An answer to a call of the JetStream API, with the values that its text shows.
#[derive(Drop, Debug)]
pub enum ApiReply {
    /// How many streams and consumers there are, and the sizes of the stored messages together.
    AccountInfo {
        consumers: u64,
        storage: u64,
        streams: u64,
    },
    StreamCreate(StreamInfo),
    StreamUpdate(StreamInfo),
    StreamInfo(StreamInfo),
    StreamDelete,
    /// So many messages were removed.
    StreamPurge {
        purged: u64,
    },
    /// The names from `offset` on of `total` streams.
    StreamNames {
        offset: u64,
        streams: List<Blob>,
        total: u64,
    },
    /// Their informations.
    StreamList {
        offset: u64,
        streams: List<StreamInfo>,
        total: u64,
    },
    /// A stored message.
    StreamMsgGet(Message),
    StreamMsgDelete,
    ConsumerCreate(ConsumerInfo),
    ConsumerInfo(ConsumerInfo),
    ConsumerDelete,
    /// The names from `offset` on of `total` consumers.
    ConsumerNames {
        consumers: List<Blob>,
        offset: u64,
        total: u64,
    },
    /// Their informations.
    ConsumerList {
        consumers: List<ConsumerInfo>,
        offset: u64,
        total: u64,
    },
    /// The call with this name, as `stream_info`, is refused.
    Refused(Blob, ApiError),
}
