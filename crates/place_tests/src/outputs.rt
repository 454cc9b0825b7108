//! What the outputs of a place are looked at for.

use js_base::{Blob, Out};

/// Whether the output is a delivery to `_P`, with this subject for its acknowledgement.
pub fn is_delivery(out: Option<&Out>, ack: &[u8]) -> bool {
    match out {
        Some(out) => out.to.as_slice() == b"_P".as_slice() && is_text(out.reply.as_ref(), ack),
        None => false,
    }
}

fn is_text(text: Option<&Blob>, wanted: &[u8]) -> bool {
    match text {
        Some(text) => text.as_slice() == wanted,
        None => false,
    }
}

/// Whether the output is this status block to `_P`.
pub fn is_status(out: Option<&Out>, block: &[u8]) -> bool {
    match out {
        Some(out) => out.to.as_slice() == b"_P".as_slice() && out.headers.as_slice() == block,
        None => false,
    }
}
