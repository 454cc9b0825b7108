//! A gate that says whether a link was served.

use link_edge::Gate;
use std::alloc::Global;
use std::sync::Arc;
use std::sync::atomic::{AtomicBool, Ordering};

/// Holds nobody. It takes its flag down as a worker comes to serve the first link, and sets it once a link was served.
#[derive(Drop)]
pub(crate) struct ServedGate {
    begun: AtomicBool,
    served: Arc<AtomicBool, Global>,
}

impl ServedGate {
    /// A gate for this flag.
    pub(crate) fn new(served: Arc<AtomicBool, Global>) -> ServedGate {
        ServedGate {
            begun: AtomicBool::new(false),
            served,
        }
    }
}

impl Gate for ServedGate {
    fn pass(&self, _worker: u32, call: u64) {
        if call % 2 == 1 {
            self.served.store(true, Ordering::SeqCst);
        } else if !self.begun.swap(true, Ordering::SeqCst) {
            self.served.store(false, Ordering::SeqCst);
        }
    }
}
