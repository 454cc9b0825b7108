//! An input is decoded in pieces.

ghost use Rattle.std.specs.Prelude.{◌≡◌, ◌<◌, ◌≤◌, ◌+◌, ◌^◌, length, IfOk, OnOk};
ghost use Rattle.nats_frames.specs.Decoding.{total};
ghost use Rattle.bench_program.specs.Counting.{Counts, Takes};

use nats_frames::{Decoder, FrameFault};
use std::alloc::Global;

/// How many bytes an input has at most: more are in no memory.
const MOST: usize = (1 << 62) - 1;

/// Takes off all operations that are whole, and answers how many they were.
fn take_all(decoder: &mut Decoder) -> Result<u64, FrameFault>
    ensures takes { IfOk result (λ count. Takes count decoder.old.bytes decoder.new.bytes) }
    ensures total { total decoder.new ≡ total decoder.old }
{
    for count in 0..u64::MAX {
        match decoder.next() {
            Ok(Some(_)) => {}
            Ok(None) => return Ok(count),
            Err(fault) => return Err(fault),
        }
    }
    Err(FrameFault::NoMemory)
}

/// Decodes the input in pieces of so many bytes, the last of which may be shorter, and answers how many operations it has. What comes after the
/// last whole operation is no operation. With pieces of no bytes nothing is decoded.
pub(crate) fn decode(alloc: Global, input: &[u8], len: usize) -> Result<u128, FrameFault>
    ensures counts { 0 < len → IfOk result (λ count. Counts count input.now) }
{
    if len == 0 {
        return Ok(0);
    }
    if input.len() > MOST {
        return Err(FrameFault::NoMemory);
    }
    let mut decoder = Decoder::new(alloc);
    let mut operations: u128 = 0;
    let mut rest = input;
    while !rest.is_empty() {
        let (piece, more) = rest.split_at(len.min(rest.len()));
        match decoder.feed(piece) {
            Ok(()) => {}
            Err(_) => return Err(FrameFault::NoMemory),
        }
        match take_all(&mut decoder) {
            Ok(count) => operations += u128::from(count),
            Err(fault) => return Err(fault),
        }
        rest = more;
    }
    Ok(operations)
}
