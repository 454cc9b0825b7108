//! Bytes that were fed, of which operations are taken off the front.

ghost use Rattle.std.specs.Prelude.{◌≡◌, ◌+◌, ◌<◌, ◌^◌, true, [], ◌∷◌, ◌++◌, length, OnOk, OnErr};

use crate::fault::told;
use crate::look::{Look, is_in_line, look_at};
use crate::op::FrameFault;
use crate::shape::Shape;
use bytes::{BufMut, Bytes, BytesMut};
use js_base::NoMemory;
use std::alloc::Global;
use std::marker::Model;

/// The bytes of one operation, and the places of its parts in them.
#[derive(Drop, Debug)]
pub(crate) struct Ready {
    pub(crate) bytes: Bytes,
    pub(crate) shape: Shape,
}

/// Bytes that were fed and not taken yet, which contracts see as their list. What was found out about them is kept, so that no line is
/// searched twice for its end, and none is read again before its payload has come.
#[derive(Drop, Debug)]
pub(crate) struct Front {
    bytes: BytesMut,
    scanned: usize,
    quiet: usize,
}

impl Model for Front {
    ghost use Rattle.std.specs.Prelude.{ℕ, List};
    ghost use Rattle.nats_frames.specs.Reading.{op_at};
    ghost use Rattle.nats_frames.specs.Looking.{IsScanned, IsQuiet};

    ghost Value = { List ℕ };

    ghost view = { λ front. front.bytes.items };

    ghost invariant = { λ front. IsScanned front.bytes.items front.scanned × IsQuiet op_at front.bytes.items front.quiet };
}

impl Front {
    ghost use Rattle.nats_frames.specs.Decoding.{Takes};
    ghost use Rattle.nats_frames.specs.Reading.{op_at, Partial};

    /// No bytes.
    pub(crate) fn new(alloc: Global) -> Front
        ensures { result ≡ [] }
    {
        Front {
            bytes: BytesMut::new(alloc),
            scanned: 0,
            quiet: 0,
        }
    }

    /// Adds bytes at the end. An `Err` leaves what was there.
    pub(crate) fn push(&mut self, piece: &[u8]) -> Result<(), NoMemory>
        ensures ok { OnOk result (self.new ≡ self.old ++ piece.now) }
        ensures err { OnErr result (self.new ≡ self.old) }
    {
        match piece {
            // Each piece of a client that sends byte by byte: with no call to copy it, and no search for the end of its line.
            [byte] => self.push_byte(*byte),
            _ => self.push_all(piece),
        }
    }

    fn push_all(&mut self, piece: &[u8]) -> Result<(), NoMemory>
        ensures ok { OnOk result (self.new ≡ self.old ++ piece.now) }
        ensures err { OnErr result (self.new ≡ self.old) }
    {
        match self.bytes.extend_from_slice(piece) {
            Ok(()) => Ok(()),
            Err(_) => Err(NoMemory),
        }
    }

    /// Adds a byte. If it continues a line, what is known of the bytes grows by it.
    fn push_byte(&mut self, byte: u8) -> Result<(), NoMemory>
        ensures ok { OnOk result (self.new ≡ self.old ++ byte ∷ []) }
        ensures err { OnErr result (self.new ≡ self.old) }
    {
        let len = self.bytes.len();
        match self.bytes.put_u8(byte) {
            Ok(()) => {}
            Err(_) => return Err(NoMemory),
        }
        if self.scanned == len && is_in_line(len, byte) {
            self.scanned = len + 1;
            self.quiet = len + 2;
        }
        Ok(())
    }

    /// Whether it is known that the bytes are less than an operation, and have no fault.
    pub(crate) fn is_quiet(&self) -> bool
        ensures partial { result ≡ true → op_at self.now ≡ Partial }
    {
        self.bytes.len() < self.quiet
    }

    /// Takes the operation at the front, of an input of which so many bytes came before. An `Err` leaves what was there.
    pub(crate) fn take(&mut self, before: u64) -> Result<Option<Ready>, FrameFault>
        requires room { before + length self.old < 2 ^ 62 }
        ensures takes { Takes result before self.old self.new }
    {
        if self.is_quiet() {
            return Ok(None);
        }
        match look_at(self.bytes.as_slice(), self.scanned) {
            Look::Whole { shape, len } => match self.bytes.freeze_to(len) {
                Ok(bytes) => {
                    self.scanned = 0;
                    self.quiet = 0;
                    Ok(Some(Ready { bytes, shape }))
                }
                Err(_) => Err(FrameFault::NoMemory),
            },
            Look::Partial { scanned, quiet } => {
                self.scanned = scanned;
                self.quiet = quiet;
                Ok(None)
            }
            Look::Broken(fault) => Err(told(fault, before)),
        }
    }
}
