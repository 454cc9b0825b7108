//! Messages as a block file has them.

ghost use Rattle.std.specs.Prelude.{◌≡◌, ◌≤◌, ◌++◌, length, IsTrue, IfOk, IfErr, OnOk, OnErr, Ok};
ghost use Rattle.op_records.specs.Answers.{IsBehind, IsFaultOf, IsWithin, ReadsAt};
ghost use Rattle.op_records.specs.BlockAnswers.{message_of, EndsAt};
ghost use Rattle.op_records.specs.Blocks.{is_block_message, spelled_fields, spelled_message, content_field, message_fields, message_at};

use crate::fault::RecordFault;
use crate::puts::{put_checked, put_long, put_text, put_two};
use crate::reader::{MOST_BYTES, Reader};
use js_base::{Blob, Moment, NoMemory, put_bytes};
use js_model::Message;
use std::alloc::Global;

/// How many bytes a message takes besides those of its subject, header block and payload: its length and checksum, two numbers, and two lengths.
const FIXED_BYTES: usize = 30;

/// A message whose texts lie in the bytes of a block.
#[derive(Clone, Copy)]
struct Found<'a> {
    seq: u64,
    at: Moment,
    subject: &'a [u8],
    headers: &'a [u8],
    payload: &'a [u8],
}

/// How many bytes the message takes in a block, up to 1,049,630. It takes no memory.
#[tactic(auto, unfolding(crate::specs::Blocks::spelled_message))]
pub fn message_len(message: &Message) -> u32
    requires message { IsTrue (is_block_message message.now) }
    ensures value { result ≡ length (spelled_message message.now) }
    ensures least { 30 ≤ result }
    ensures most { result ≤ 1049630 }
{
    let texts = message.subject.len() + message.headers.len() + message.payload.len();
    (FIXED_BYTES + texts) as u32
}

/// Adds what follows a message's length and checksum.
fn put_fields(into: &mut Vec<u8>, message: &Message) -> Result<(), NoMemory>
    requires message { IsTrue (is_block_message message.now) }
    ensures ok { OnOk result (into.new.items ≡ into.old.items ++ spelled_fields message.now) }
{
    put_two(into, message.seq, message.at.as_nanos())?;
    put_text(into, &message.subject)?;
    put_long(into, message.headers.as_slice())?;
    put_bytes(into, message.payload.as_slice())
}

/// Adds the message as a block has it at the end. An `Err` leaves what was there.
#[tactic(auto, unfolding(crate::specs::Blocks::spelled_message))]
pub fn write_message(alloc: Global, message: &Message, into: &mut Vec<u8>) -> Result<(), NoMemory>
    requires message { IsTrue (is_block_message message.now) }
    ensures ok { OnOk result (into.new.items ≡ into.old.items ++ spelled_message message.now) }
    ensures err { OnErr result (into.new.items ≡ into.old.items) }
{
    let mut fields = Vec::new(alloc);
    put_fields(&mut fields, message)?;
    let mut spelled = Vec::new(alloc);
    put_checked(&mut spelled, fields.as_slice())?;
    put_bytes(into, spelled.as_slice())
}

/// A message's header block, and its payload, which goes on to the end. If they are too long together, the header block is told.
#[tactic(auto, unfolding(crate::specs::Blocks::content_field))]
fn content<'a>(reader: &mut Reader<'a>, end: usize) -> Result<(&'a [u8], &'a [u8]), RecordFault>
    requires within { IsWithin reader.old }
    requires end { length reader.old.bytes.now ≤ end }
    ensures behind { IsBehind reader.old reader.new }
    ensures value { IfOk result (λ c. content_field end reader.old.bytes.now reader.old.at ≡ Ok ((c.0.now, c.1.now), reader.new.at)) }
    ensures fault { IfErr result (IsFaultOf (content_field end reader.old.bytes.now reader.old.at)) }
{
    let (begin, headers) = reader.headers()?;
    let at = reader.at;
    let payload = reader.part(at, end - at)?;
    if headers.len() + payload.len() <= MOST_BYTES {
        Ok((headers, payload))
    } else {
        Err(RecordFault::BadField(begin))
    }
}

/// The fields of a message that ends there.
#[tactic(auto, unfolding(crate::specs::Blocks::message_fields))]
fn fields<'a>(reader: &mut Reader<'a>, end: usize) -> Result<Found<'a>, RecordFault>
    requires within { IsWithin reader.old }
    requires end { length reader.old.bytes.now ≤ end }
    ensures behind { IsBehind reader.old reader.new }
    ensures value { IfOk result (λ found. message_fields end reader.old.bytes.now reader.old.at ≡ Ok (message_of found, reader.new.at)) }
    ensures fault { IfErr result (IsFaultOf (message_fields end reader.old.bytes.now reader.old.at)) }
{
    let seq = reader.number()?;
    let at = reader.moment()?;
    let subject = reader.subject_bytes()?;
    let (headers, payload) = content(reader, end)?;
    Ok(Found {
        seq,
        at,
        subject,
        headers,
        payload,
    })
}

/// The message that begins at a place of the bytes, and the place behind it.
#[tactic(auto, unfolding(crate::specs::Blocks::message_at))]
fn find(alloc: Global, bytes: &[u8], at: usize) -> Result<(Found<'_>, usize), RecordFault>
    requires within { at ≤ length bytes.now }
    ensures value { IfOk result (λ found. message_at bytes.now at ≡ Ok (message_of found.0, found.1)) }
    ensures fault { IfErr result (IsFaultOf (message_at bytes.now at)) }
{
    let mut reader = Reader { alloc, bytes, at };
    let end = reader.checked_end()?;
    let mut inner = Reader {
        alloc,
        bytes: &bytes[..end],
        at: reader.at,
    };
    match fields(&mut inner, end) {
        Ok(found) => Ok((found, inner.at)),
        Err(fault) => Err(fault),
    }
}

/// The message with copies of its texts.
fn copy(alloc: Global, found: &Found<'_>) -> Result<Message, NoMemory>
    ensures value { IfOk result (λ message. message ≡ message_of found.now) }
{
    Ok(Message {
        seq: found.seq,
        at: found.at,
        subject: Blob::of(alloc, found.subject)?,
        headers: Blob::of(alloc, found.headers)?,
        payload: Blob::of(alloc, found.payload)?,
    })
}

/// The message that begins at a place of a block's bytes, and the place behind it.
///
/// If the bytes end before the message does, `Cut` tells its beginning, or that of its checksum if they end in there. If its fields have another checksum,
/// `BadField` tells its beginning. Of fields with that checksum `Cut` tells the first that passes the end of the message, and `BadField` the first that holds
/// what it may not hold: a number of 2^62 or more, no subject, a header block that is none, or one that is longer than 1,048,576 bytes together with the
/// payload.
pub fn read_message(alloc: Global, bytes: &[u8], at: usize) -> Result<(Message, usize), RecordFault>
    requires within { at ≤ length bytes.now }
    ensures reading { ReadsAt result (message_at bytes.now at) }
{
    match find(alloc, bytes, at) {
        Ok((found, end)) => Ok((copy(alloc, &found)?, end)),
        Err(fault) => Err(fault),
    }
}

/// The sequence of the message that begins at a place of a block's bytes, and the place behind it. No message is made, and the faults are those of
/// [`read_message`].
pub fn message_end(alloc: Global, bytes: &[u8], at: usize) -> Result<(u64, usize), RecordFault>
    requires within { at ≤ length bytes.now }
    ensures reading { EndsAt result (message_at bytes.now at) }
{
    match find(alloc, bytes, at) {
        Ok((found, end)) => Ok((found.seq, end)),
        Err(fault) => Err(fault),
    }
}
