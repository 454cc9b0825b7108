//! A stream of operations, decoded piece by piece.

ghost use Rattle.std.specs.Prelude.{◌≡◌, ◌+◌, ◌<◌, ◌^◌, ◌++◌, [], length, None, true, OnOk, OnErr, IfOk, IfErr, IfSome};
ghost use Rattle.nats_frames.specs.Decoding.{IsReady, kept, Takes};
ghost use Rattle.nats_frames.specs.Shapes.{op_in};

use crate::front::{Front, Ready};
use crate::op::{FrameFault, Op};
use crate::shape::op_in;
use js_base::NoMemory;
use std::alloc::Global;
use std::marker::Model;

/// A decoder of a client's input, by the NATS client protocol. Contracts see it as how many bytes were taken off the start of the input, and
/// the bytes that were fed since, so that it does not matter in which pieces they came.
#[derive(Drop, Debug)]
pub struct Decoder {
    front: Front,
    /// An operation that was taken off and could not be given yet.
    ready: Option<Ready>,
    before: u64,
}

impl Model for Decoder {
    ghost use Rattle.std.specs.Prelude.{◌+◌, ◌<◌, ◌^◌, ◌++◌, length, IfSome};
    ghost use Rattle.nats_frames.specs.Decoding.{Held, IsReady, kept};

    ghost Value = { Held };

    ghost view = { λ d. record { before = d.before; bytes = kept d.ready ++ d.front } };

    ghost invariant = { λ d. IfSome d.ready IsReady × (d.before + length (kept d.ready ++ d.front) < 2 ^ 62) };
}

/// The operation that was taken off before, or else the next one.
fn take(
    ready: &mut Option<Ready>,
    front: &mut Front,
    before: u64,
) -> Result<Option<Ready>, FrameFault>
    requires ready { IfSome ready.old IsReady }
    requires room { before + length (kept ready.old ++ front.old) < 2 ^ 62 }
    ensures takes { Takes result before (kept ready.old ++ front.old) front.new }
    ensures none { ready.new ≡ None }
{
    if ready.is_some() {
        return Ok(ready.take());
    }
    front.take(before)
}

/// The operation whose bytes these are. They come back if memory runs out.
fn into_op(ready: Ready) -> Result<Op, Ready>
    requires { IsReady ready }
    ensures ok { IfOk result (λ op. op ≡ op_in ready.bytes ready.shape) }
    ensures err { IfErr result (λ back. back ≡ ready) }
{
    match op_in(&ready.bytes, ready.shape) {
        Ok(op) => Ok(op),
        Err(_) => Err(ready),
    }
}

impl Decoder {
    ghost use Rattle.nats_frames.specs.Decoding.{total, Gives};
    ghost use Rattle.nats_frames.specs.Reading.{op_at, Partial};

    /// A decoder of an input of which nothing has come yet. It takes no memory.
    pub fn new(alloc: Global) -> Decoder
        ensures start { result ≡ record { before = 0; bytes = [] } }
    {
        Decoder {
            front: Front::new(alloc),
            ready: None,
            before: 0,
        }
    }

    /// Takes the next piece of the input, of which fewer than 2^62 bytes may be fed in all. An `Err` changes nothing.
    pub fn feed(&mut self, piece: &[u8]) -> Result<(), NoMemory>
        requires room { total self.old + length piece.now < 2 ^ 62 }
        ensures ok { OnOk result (self.new ≡ record { before = self.old.before; bytes = self.old.bytes ++ piece.now }) }
        ensures err { OnErr result (self.new ≡ self.old) }
    {
        self.front.push(piece)
    }

    /// Whether it is known that the bytes that are held are less than an operation and have no fault. It may answer false even if they
    /// are so; `next` decides.
    pub fn is_known_partial(&self) -> bool
        ensures partial { result ≡ true → op_at self.now.bytes ≡ Partial }
    {
        self.ready.is_none() && self.front.is_quiet()
    }

    /// The first operation of what was fed, which is taken off. `None` comes exactly if the bytes are less than an operation and
    /// have no fault. An `Err` changes nothing, so a fault comes again at the next call.
    pub fn next(&mut self) -> Result<Option<Op>, FrameFault>
        ensures gives { Gives result self.old self.new }
        ensures total { total self.new ≡ total self.old }
    {
        let ready = match take(&mut self.ready, &mut self.front, self.before) {
            Ok(Some(ready)) => ready,
            Ok(None) => return Ok(None),
            Err(fault) => return Err(fault),
        };
        let len = ready.bytes.len() as u64;
        match into_op(ready) {
            Ok(op) => {
                self.before += len;
                Ok(Some(op))
            }
            Err(ready) => {
                self.ready = Some(ready);
                Err(FrameFault::NoMemory)
            }
        }
    }
}
