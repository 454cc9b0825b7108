//! How a stream is set up.

use js_base::{Blob, List};

/// Which messages a stream keeps beside what its limits keep, by JetStream's retention policies.
#[derive(Clone, Copy, Debug, PartialEq, Eq)]
pub enum Retention {
    /// What the limits keep.
    Limits,
    /// A message that some consumer still needs.
    Interest,
    /// A message until its consumer has acknowledged it.
    WorkQueue,
}

/// What happens when a new message passes the stream's limits, by JetStream's discard policies.
#[derive(Clone, Copy, Debug, PartialEq, Eq)]
pub enum Discard {
    /// The oldest messages go.
    Old,
    /// The new message is refused.
    New,
}

/// A stream's configuration, by the stream documentation of JetStream: one field for each name that its text
/// prints, after the defaults. A limit of `None` prints as -1, and is no limit: but for `max_msgs` it is 2^24, and for
/// `max_consumers` 256. `num_replicas` and `storage` have one value each, 1 and `file`, and no field.
#[derive(Drop, Debug)]
pub struct StreamConfig {
    /// At most 4,096 bytes.
    pub description: Blob,
    pub discard: Discard,
    /// For how many nanoseconds an id is remembered, 1 or more.
    pub duplicate_window: u64,
    /// For how many nanoseconds a message stays, 0 for ever.
    pub max_age: u64,
    /// The sizes of the messages together, in bytes.
    pub max_bytes: Option<u64>,
    /// At most 256.
    pub max_consumers: Option<u64>,
    /// Headers and payload of one message, in bytes.
    pub max_msg_size: Option<u64>,
    pub max_msgs: Option<u64>,
    pub max_msgs_per_subject: Option<u64>,
    pub name: Blob,
    pub retention: Retention,
    /// 1 to 256 patterns.
    pub subjects: List<Blob>,
}
