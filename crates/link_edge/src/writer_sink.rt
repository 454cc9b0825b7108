//! A sink over a writer.

ghost use Rattle.std.specs.Prelude.{◌≡◌, None};

use crate::answers::Put;
use crate::sink::Sink;
use std::io::Write;
use std::marker::Model;

/// A sink over a writer. What was written is not known to contracts, which see how often it failed.
#[derive(Drop)]
pub struct WriterSink<W: Write + Drop> {
    output: W,
    faults: u64,
}

impl<W: Write + Drop> Model for WriterSink<W> {
    ghost use Rattle.std.specs.Prelude.{ℕ};

    ghost Value = { ℕ };

    ghost view = { λ s. s.faults };
}

impl<W: Write + Drop> WriterSink<W> {
    /// A sink that writes to the writer.
    pub fn new(output: W) -> WriterSink<W>
        ensures unfailed { result ≡ 0 }
    {
        WriterSink { output, faults: 0 }
    }

    /// How often it failed. The count stops at the greatest number of its type.
    pub fn faults(&self) -> u64
        ensures value { result ≡ self.now }
    {
        self.faults
    }
}

impl<W: Write + Drop> Sink for WriterSink<W> {
    ghost written = { λ _. None };

    ghost faults = { λ faults. faults };

    /// Writes all of the piece, and flushes the writer.
    fn put(&mut self, bytes: &[u8]) -> Put {
        let written = self.output.write_all(bytes);
        if written.is_ok() && self.output.flush().is_ok() {
            return Put::Done;
        }
        self.faults = self.faults.saturating_add(1);
        Put::Failed
    }
}
