//! Acknowledgements and pull requests.

use js_base::Blob;

/// What a pull request asks for.
#[derive(Clone, Copy, Debug, PartialEq, Eq)]
pub struct Ask {
    /// How many messages, 1 or more.
    pub batch: u64,
    /// After how many nanoseconds it ends, 0 for never.
    pub expires: u64,
    pub no_wait: bool,
    pub max_bytes: Option<u64>,
    /// In nanoseconds, 0 for none.
    pub heartbeat: u64,
}

/// What an acknowledgement says, by JetStream's acknowledgement bodies.
#[derive(Clone, Copy, Debug, PartialEq, Eq)]
pub enum AckKind {
    /// `+ACK`: done.
    Ack,
    /// `-NAK`: deliver it again, after this many nanoseconds.
    Nak(u64),
    /// `+WPI`: in progress.
    Wpi,
    /// `+NXT`: done, and a pull.
    Next(Ask),
    /// `+TERM`: never deliver it again.
    Term,
}

/// An acknowledgement of a stream's sequence by a consumer.
#[derive(Drop, Debug, PartialEq, Eq)]
pub struct Ack {
    pub stream: Blob,
    pub consumer: Blob,
    pub seq: u64,
    pub kind: AckKind,
}
