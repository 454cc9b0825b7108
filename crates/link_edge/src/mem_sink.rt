//! A sink in memory.

ghost use Rattle.std.specs.Prelude.{◌≡◌, []};
ghost use Rattle.js_base.specs.Causes.{HasCause};

use crate::answers::Put;
use crate::calls::Calls;
use crate::sink::Sink;
use js_base::List;
use std::alloc::Global;
use std::marker::Model;

/// A sink that keeps what is written. Puts are numbered from 0, and those with stated numbers fail after
/// the first half of the piece. A put for which memory runs out fails too, and writes nothing.
#[derive(Drop, Debug)]
pub struct MemSink {
    bytes: Vec<u8>,
    calls: Calls,
}

impl Model for MemSink {
    ghost use Rattle.link_edge.specs.MemSink.{SinkState};

    ghost Value = { SinkState };

    ghost view = { λ s. record { written = s.bytes.items; calls = s.calls } };
}

impl MemSink {
    ghost use Rattle.link_edge.specs.MemSink.{sink_of};

    /// An empty sink, which fails only if memory runs out.
    pub fn new(alloc: Global) -> MemSink
        ensures fresh { result ≡ sink_of [] }
    {
        MemSink::failing(alloc, List::new(alloc))
    }

    /// An empty sink whose puts with these numbers fail.
    pub fn failing(alloc: Global, failing: List<u64>) -> MemSink
        ensures fresh { result ≡ sink_of failing }
    {
        MemSink {
            bytes: Vec::new(alloc),
            calls: Calls::new(failing),
        }
    }

    /// What was written.
    pub fn written(&self) -> &[u8]
        ensures value { result.now ≡ self.now.written }
    {
        self.bytes.as_slice()
    }

    /// How often it failed.
    pub fn faults(&self) -> u64
        ensures value { result ≡ self.now.calls.failed }
    {
        self.calls.faults()
    }
}

impl Sink for MemSink {
    ghost use Rattle.std.specs.Prelude.{Some};
    ghost use Rattle.link_edge.specs.MemSink.{IsPut};

    ghost written = { λ s. Some s.written };

    ghost faults = { λ s. s.calls.failed };

    /// Writes the piece, or half of it if it is to fail, or nothing if memory runs out.
    fn put(&mut self, bytes: &[u8]) -> Put
        ensures put { IsPut self.old self.new result bytes.now }
        ensures cause { HasCause self.old.calls.failed self.new.calls.failed (result ≡ Put.Failed) }
    {
        if self.calls.next_fails() {
            let (half, _) = bytes.split_at(bytes.len() / 2);
            let _ = self.bytes.extend_from_slice(half);
            self.calls.fail();
            return Put::Failed;
        }
        match self.bytes.extend_from_slice(bytes) {
            Ok(()) => {
                self.calls.pass();
                Put::Done
            }
            Err(_) => {
                self.calls.fail();
                Put::Failed
            }
        }
    }
}
