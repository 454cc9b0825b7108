//! What a step of a stream sends, and its refusals.

use crate::blob::Blob;
use crate::list::List;

/// A message that the server routes by one subject and shows under another. The two differ only if a stored message is delivered.
#[derive(Drop, Clone, Debug, PartialEq, Eq)]
pub struct Out {
    /// The subject by which it finds its subscriptions.
    pub to: Blob,
    /// The subject that its receivers see.
    pub subject: Blob,
    /// The subject to which its receivers reply.
    pub reply: Option<Blob>,
    /// The header block, empty if there is none.
    pub headers: Blob,
    pub payload: Blob,
}

/// Messages in the order in which they are routed.
pub type Outs = List<Out>;

/// A refusal of the JetStream API: its HTTP-like code, the number that names it, and its text.
#[derive(Drop, Clone, Debug, PartialEq, Eq)]
pub struct ApiError {
    /// Its kind, as an HTTP status code.
    pub code: u16,
    /// The number that names the refusal, as JetStream's `err_code`.
    pub err_code: u32,
    /// What it says to a reader.
    pub text: Blob,
}
