//! What a run measures.

use js_base::read_decimal;
use js_model::Retention;

/// The step that is measured.
#[derive(Clone, Copy, PartialEq, Eq)]
pub(crate) enum Kind {
    /// A message is pulled and delivered, and the first pending one acknowledged.
    Deliver,
    /// The work at a pending message goes on.
    Progress,
    /// Time passes, and nothing is due.
    Tick,
    /// A message is published.
    Publish,
    /// No consumer is found ready for a delivery.
    Look,
}

/// A step, how many times it is made, and the state before.
#[derive(Clone, Copy)]
pub(crate) struct Measurement {
    pub(crate) kind: Kind,
    pub(crate) retention: Retention,
    /// How many messages are stored.
    pub(crate) stored: u32,
    /// How many deliveries of one consumer are pending.
    pub(crate) pending: u32,
    /// How many consumers there are beside it, at most 255.
    pub(crate) others: u8,
    pub(crate) steps: u32,
}

impl Kind {
    pub(crate) fn named(name: &[u8]) -> Option<Kind> {
        if name == b"deliver".as_slice() {
            Some(Kind::Deliver)
        } else if name == b"progress".as_slice() {
            Some(Kind::Progress)
        } else if name == b"tick".as_slice() {
            Some(Kind::Tick)
        } else if name == b"publish".as_slice() {
            Some(Kind::Publish)
        } else if name == b"look".as_slice() {
            Some(Kind::Look)
        } else {
            None
        }
    }
}

/// One of the policies that a publish is measured under.
pub(crate) fn retention_named(name: &[u8]) -> Option<Retention> {
    if name == b"limits".as_slice() {
        Some(Retention::Limits)
    } else if name == b"interest".as_slice() {
        Some(Retention::Interest)
    } else {
        None
    }
}

pub(crate) fn number(text: &[u8]) -> Option<u32> {
    u32::try_from(read_decimal(text).ok()?).ok()
}
