//! What a place kept when it was opened.

use js_base::{Blob, List, Name};

/// What a place kept: a stream, or nothing.
#[derive(Drop, Debug)]
pub struct KeptPlace {
    /// The incarnation of its stream, or else that of its next one, at most 2^62.
    pub incarnation: u64,
    /// The name and the subjects of its stream.
    pub stream: Option<(Name, List<Blob>)>,
}
