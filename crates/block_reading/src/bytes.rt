//! Messages in bytes that were read.

ghost use Rattle.std.specs.Prelude.{◌≡◌, ◌==◌, ◌&&◌, ◌≤◌, ◌<◌, ◌^◌, length, Ok, IfOk, IfErr, OnOk};
ghost use Rattle.op_records.specs.BlockAnswers.{EndsAt};
ghost use Rattle.op_records.specs.Blocks.{message_at};
ghost use Rattle.block_reading.specs.Standing.{AreMessages};
ghost use Rattle.block_reading.specs.Reading.{IsBytesFault, IsEndFault, IsOn, IsStoredAs, IsStoredFault, bytes_fault};

use js_model::Message;
use op_records::{RecordFault, message_end, read_message};
use std::alloc::Global;

/// Why bytes are not seen to be messages.
#[derive(Clone, Copy)]
pub(crate) enum BytesFault {
    /// The message at this offset is wrong.
    Wrong(u32),
    NoMemory,
}

/// The fault of the message at an offset.
fn fault_at(at: u32, fault: RecordFault) -> BytesFault
    ensures value { result ≡ bytes_fault at fault }
{
    match fault {
        RecordFault::NoMemory => BytesFault::NoMemory,
        _ => BytesFault::Wrong(at),
    }
}

/// The sequence of the message at an offset, and the offset behind it.
fn next_message(alloc: Global, bytes: &[u8], at: u32) -> Result<(u64, u32), BytesFault>
    requires within { at ≤ length bytes.now }
    requires short { length bytes.now < 2 ^ 32 }
    ensures ends { IfOk result (λ next. EndsAt (Ok next) (message_at bytes.now at)) }
    ensures on { IfOk result (λ next. IsOn bytes.now at next.0 next.1) }
    ensures fault { IfErr result (IsEndFault bytes.now at) }
{
    match message_end(alloc, bytes, at as usize) {
        Ok((seq, behind)) => Ok((seq, behind as u32)),
        Err(fault) => Err(fault_at(at, fault)),
    }
}

/// Whether the bytes, which are no more than so many, are messages up to that end, one behind the other. Their sequences rise up to the last one of the
/// stream.
pub(crate) fn check_bytes(
    alloc: Global,
    bytes: &[u8],
    end: u32,
    last: u64,
) -> Result<(), BytesFault>
    requires within { length bytes.now ≤ end }
    ensures messages { OnOk result (AreMessages bytes.now last end) }
    ensures fault { IfErr result (IsBytesFault bytes.now last end) }
{
    let mut at = 0;
    let mut low = 0;
    while at < end {
        let (seq, behind) = next_message(alloc, bytes, at)?;
        if seq < low || last < seq {
            return Err(BytesFault::Wrong(at));
        }
        low = seq + 1;
        at = behind;
    }
    Ok(())
}

/// Whether the message has the sequence and the moment that the log tells.
fn is_told(told: &Message, message: &Message) -> bool
    ensures value { result ≡ (message.now.seq == told.now.seq && message.now.at == told.now.at) }
{
    message.seq == told.seq && message.at == told.at
}

/// The stored message that the bytes are, which has the sequence and the moment that the log tells.
pub(crate) fn stored_message(
    alloc: Global,
    bytes: &[u8],
    told: &Message,
) -> Result<Message, BytesFault>
    requires short { length bytes.now < 2 ^ 32 }
    ensures stored { IfOk result (IsStoredAs bytes.now told.now) }
    ensures fault { IfErr result (IsStoredFault bytes.now told.now) }
{
    match read_message(alloc, bytes, 0) {
        Ok((message, end)) => {
            if end == bytes.len() && is_told(told, &message) {
                Ok(message)
            } else {
                Err(BytesFault::Wrong(0))
            }
        }
        Err(fault) => Err(fault_at(0, fault)),
    }
}
