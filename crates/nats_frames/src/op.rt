//! What a client asks.

use js_base::Blob;
use thiserror::Error;

/// An operation of the NATS client protocol, from a client. Its parts share the bytes that were fed. Subjects are as they were written,
/// and are not checked.
#[derive(Debug, Drop, PartialEq, Eq)]
pub enum Op {
    /// The client's options, as the text of a JSON object, which is not checked.
    Connect {
        text: Blob,
    },
    /// A message to a subject, with the subject that an answer goes to.
    Pub {
        subject: Blob,
        reply: Option<Blob>,
        payload: Blob,
    },
    /// The same with a block of headers, as it was written.
    HPub {
        subject: Blob,
        reply: Option<Blob>,
        headers: Blob,
        payload: Blob,
    },
    /// A subscription to a pattern, under an identifier that the client chooses. With a queue it joins that queue group.
    Sub {
        subject: Blob,
        queue: Option<Blob>,
        sid: Blob,
    },
    /// The end of a subscription, at once or after so many messages in all.
    Unsub {
        sid: Blob,
        max: Option<u64>,
    },
    Ping,
    Pong,
}

/// Why no operation is read. All but `NoMemory` are final.
#[derive(Clone, Copy, Debug, PartialEq, Eq, Error)]
pub enum FrameFault {
    /// The line's name is that of no operation.
    #[error("not an operation")]
    UnknownOp,
    /// No line ends among the next 4,098 bytes.
    #[error("a line of more than 4,098 bytes")]
    LineTooLong,
    /// The fields are not those of the operation: too few or too many, no number, or one that is too long.
    #[error("not the operation's fields")]
    BadArgs,
    /// So many bytes are counted, which are more than 1,048,576.
    #[error("a payload of {0} bytes")]
    PayloadTooBig(u64),
    /// The first byte after a payload that is not as in CR LF, counted from the start of the input.
    #[error("a payload without its end at {0}")]
    BadEnd(u64),
    #[error("out of memory")]
    NoMemory,
}
