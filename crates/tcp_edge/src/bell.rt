//! Bells, which end a wait from another thread.

use mio::{Registry, Token, Waker};
use std::io;
use std::sync::atomic::{AtomicBool, Ordering};

/// Ends the wait of one link, from any thread. Whoever puts something where the link's session finds it rings afterwards; the take that waits, or
/// else the next one, then ends at once, and the session looks. No clause says that a ring is heard, or that a wait without one lasts.
#[derive(Drop)]
pub struct Bell {
    waker: Waker,
    /// It was rung, and no take has heard it yet.
    rung: AtomicBool,
}

impl Bell {
    /// A bell that ends the waits of a poll by an event under the token.
    pub(crate) fn new(registry: &Registry, token: Token) -> io::Result<Bell> {
        let waker = Waker::new(registry, token)?;
        Ok(Bell {
            waker,
            rung: AtomicBool::new(false),
        })
    }

    /// Rings, and does not wait. Of several rings before one is heard the first alone calls the system. Ring after the locks that the woken
    /// thread is to take were given up, else it stops at them at once.
    pub fn ring(&self) {
        if !self.rung.swap(true, Ordering::SeqCst) {
            let _woken = self.waker.wake();
        }
    }

    /// Whether it was rung since this was asked last. Whoever asks looks afterwards for what was put there before.
    pub(crate) fn hear(&self) -> bool {
        self.rung.swap(false, Ordering::SeqCst)
    }
}
