//! A gate that lets every worker pass, and one that holds a worker.

use crate::gate::Gate;
use std::alloc::Global;
use std::sync::Arc;
use std::sync::atomic::{AtomicBool, Ordering};
use std::thread::yield_now;

/// The gate of the program: it does nothing.
#[derive(Clone, Copy, Debug)]
pub struct OpenGate;

impl Gate for OpenGate {
    fn pass(&self, _worker: u32, _call: u64) {}
}

/// A gate that holds each call of one worker until it is open, but for a stated number of turns at most,
/// in each of which other threads may run. It opens once another worker has served a link, or if the
/// flag that it shares is set elsewhere.
#[derive(Drop)]
pub struct HoldGate {
    held: u32,
    turns: u64,
    open: Arc<AtomicBool, Global>,
}

impl HoldGate {
    /// A gate that holds the worker for so many turns at most, until the flag is set.
    pub fn new(held: u32, turns: u64, open: Arc<AtomicBool, Global>) -> HoldGate {
        HoldGate { held, turns, open }
    }

    /// Whether the gate is open.
    pub fn is_open(&self) -> bool {
        self.open.load(Ordering::SeqCst)
    }

    /// Opens the gate.
    pub fn open(&self) {
        self.open.store(true, Ordering::SeqCst);
    }

    /// Waits until the gate is open, for so many turns at most.
    fn hold(&self) {
        for _ in 0..self.turns {
            if self.is_open() {
                return;
            }
            yield_now();
        }
    }
}

impl Gate for HoldGate {
    fn pass(&self, worker: u32, call: u64) {
        if worker == self.held {
            self.hold();
        } else if call % 2 == 1 {
            self.open();
        }
    }
}
