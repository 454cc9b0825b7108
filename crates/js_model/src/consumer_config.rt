//! How a consumer is set up.

use js_base::{Blob, Moment};

/// Which deliveries wait for an acknowledgement, by JetStream's ack policies.
#[derive(Clone, Copy, Debug, PartialEq, Eq)]
pub enum AckPolicy {
    /// No delivery waits.
    None,
    /// An acknowledgement ends every entry up to its sequence.
    All,
    /// An acknowledgement ends the entry of its sequence.
    Explicit,
}

/// Where a new consumer begins, by JetStream's deliver policies, with `opt_start_seq` and `opt_start_time` if the
/// policy uses them.
#[derive(Clone, Copy, Debug, PartialEq, Eq)]
pub enum DeliverPolicy {
    All,
    Last,
    New,
    ByStartSequence(u64),
    ByStartTime(Moment),
    LastPerSubject,
}

/// A consumer's configuration, by the consumer documentation of JetStream: one field for each name that its text
/// prints, after the defaults. Its name prints as `durable_name` and as `name`, `replay_policy` has the one value
/// `instant` and no field.
#[derive(Drop, Debug)]
pub struct ConsumerConfig {
    pub ack_policy: AckPolicy,
    /// For how many nanoseconds a delivery waits before it is made again.
    pub ack_wait: u64,
    /// A queue name, or empty.
    pub deliver_group: Blob,
    pub deliver_policy: DeliverPolicy,
    /// Where a push consumer's messages go. Empty is a pull consumer.
    pub deliver_subject: Blob,
    /// At most 4,096 bytes.
    pub description: Blob,
    /// A pattern. Empty matches all.
    pub filter_subject: Blob,
    /// A push consumer's, in nanoseconds, 0 for none.
    pub idle_heartbeat: u64,
    /// At most 65,536. `None` prints as -1 and means 65,536.
    pub max_ack_pending: Option<u64>,
    /// How often a message is sent. `None` prints as -1 and is no limit.
    pub max_deliver: Option<u64>,
    /// How many pulls may wait, at most 65,536.
    pub max_waiting: u64,
    pub name: Blob,
}
