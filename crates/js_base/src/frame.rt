//! What the server writes to a client.

use crate::blob::Blob;

/// A frame of the NATS client protocol, from the server.
#[derive(Drop, Clone, Debug, PartialEq, Eq)]
pub enum Frame {
    /// The server's information, at the start of a session. The host is an address text, which needs no escape.
    Info {
        client_id: u64,
        host: Blob,
        port: u16,
    },
    /// A message, spelled HMSG if its header block is not empty, and MSG otherwise.
    Msg {
        subject: Blob,
        sid: Blob,
        reply: Option<Blob>,
        headers: Blob,
        payload: Blob,
    },
    /// Asks whether the client is there.
    Ping,
    /// Answers a client's PING.
    Pong,
    /// Says that a verbose client's operation was done.
    Ok,
    /// Says why an operation was not done, or why the connection ends.
    Err {
        text: Blob,
    },
}
