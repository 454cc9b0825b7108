//! Which sessions were handed a message, for whoever ends their waits.

use std::sync::atomic::{AtomicU64, Ordering};

/// The sessions that were handed messages since somebody took note of that, as any thread may: the session n by the bit n % 64, so that sessions whose
/// numbers are 64 apart stand for each other. No clause says that a session is found here, or that one that is found was handed a message.
#[derive(Drop)]
pub struct Roused {
    bits: AtomicU64,
}

impl Roused {
    /// No session was handed a message yet.
    pub fn new() -> Roused {
        Roused {
            bits: AtomicU64::new(0),
        }
    }

    /// Adds a session.
    pub(crate) fn add(&self, session: u64) {
        self.bits.fetch_or(1 << (session % 64), Ordering::SeqCst);
    }

    /// Takes out all that were added, as their bits.
    pub fn take(&self) -> u64 {
        self.bits.swap(0, Ordering::SeqCst)
    }
}
