//! A consumer that is restored from what a volume holds of it.
#![tactic(auto)]

ghost use Rattle.std.specs.Prelude.{All};
ghost use Rattle.consumer_state.specs.Keeping.{IsRestorable};
ghost use Rattle.durable_checks.specs.Storable.{IsFormed, IsOpenable, IsStorable};

use checksum::crc32c;
use consumer_state::Consumer;
use effects::Durable;
use js_base::NoMemory;
use js_model::Consumer as Kept;
use restore_laws::law_restored;
use std::alloc::Global;
use std::test::Fail;
use stream_store::Store;
use vol_disk::{MemVol, Vol};

/// The configuration of a stream.
const STREAM: &[u8] =
    br#"{"discard":"old","duplicate_window":120000000000,"max_age":0,"max_bytes":-1,"max_consumers":-1,"max_msg_size":-1,"max_msgs":-1,"max_msgs_per_subject":-1,"name":"A","num_replicas":1,"retention":"limits","storage":"file","subjects":["A"]}"#;

/// The configuration of its consumer.
const CONSUMER: &[u8] =
    br#"{"ack_policy":"explicit","ack_wait":30000000000,"deliver_policy":"all","durable_name":"C","max_ack_pending":1000,"max_deliver":-1,"max_waiting":512,"name":"C","replay_policy":"instant"}"#;

/// A log's head, and a batch that says that no stream was there.
const BEGUN: &[u8] =
    b"JSLOG\0\0\x03\0\0\0\0\0\0\0\x01\x9E\x6E\x28\xA6\x01\0\0\0\x09\x51\xF2\x4F\x1D\x20\0\0\0\0\0\0\0\0";

/// The block of file 2, with one message.
const BLOCK: &[u8] =
    b"\0\0\0\x1C\x29\x56\xA1\x8A\0\0\0\0\0\0\0\x01\0\0\0\0\0\0\x03\xE8\0\x01A\0\0\0\0hello";

/// Adds the length of the text, of which the last four bytes are written.
fn add_len(bytes: &mut Vec<u8>, text: &[u8]) -> Result<(), NoMemory> {
    let len = (text.len() as u64).to_be_bytes();
    bytes.extend_from_slice(&len[4..])?;
    Ok(())
}

/// Adds the text behind its length.
fn add_text(bytes: &mut Vec<u8>, text: &[u8]) -> Result<(), NoMemory> {
    add_len(bytes, text)?;
    bytes.extend_from_slice(text)?;
    Ok(())
}

/// Adds the records behind their length and their checksum.
fn add_batch(bytes: &mut Vec<u8>, records: &[u8]) -> Result<(), NoMemory> {
    add_len(bytes, records)?;
    bytes.extend_from_slice(&crc32c(records).to_be_bytes())?;
    bytes.extend_from_slice(records)?;
    Ok(())
}

/// The records of a stream, its first message, which stands in the block, a consumer that begins at it, and a delivery of the message.
fn records(alloc: Global) -> Result<Vec<u8>, NoMemory> {
    let mut bytes = Vec::from_slice(alloc, b"\x01\0\0\0\0\0\0\0\x01\0\0\0\0\0\0\x03\xE8")?;
    add_text(&mut bytes, STREAM)?;
    bytes.extend_from_slice(
        b"\x0E\0\0\0\0\0\0\0\x01\0\0\0\0\0\0\x03\xE8\0\0\0\x02\0\0\0\0\0\0\0\x24",
    )?;
    bytes.extend_from_slice(b"\x07\x01C\0\0\0\0\0\0\x03\xE8")?;
    add_text(&mut bytes, CONSUMER)?;
    bytes.extend_from_slice(b"\0\0\0\0\0\0\0\x01\0\0\0\0")?;
    bytes.extend_from_slice(
        b"\x09\x01C\0\0\0\0\0\0\0\x01\0\0\0\0\0\0\0\x01\0\0\0\0\0\0\x07\xD0\0\0\0\0\0\0\0\x01",
    )?;
    Ok(bytes)
}

/// A volume with the block, whose log has these records as its second batch.
fn volume(alloc: Global) -> Result<MemVol, Fail> {
    let mut bytes = Vec::from_slice(alloc, BEGUN)?;
    bytes.extend_from_slice(b"\x01")?;
    add_batch(&mut bytes, records(alloc)?.as_slice())?;
    bytes.extend_from_slice(b"\0")?;
    let mut vol = MemVol::new(alloc);
    vol.write_at(0, 0, bytes.as_slice())?;
    vol.write_at(2, 0, BLOCK)?;
    Ok(vol)
}

/// Restores each of the consumers, and gives the sequence from which on each is sent new messages.
fn restore_each(alloc: Global, consumers: &[Kept]) -> Result<Vec<u64>, NoMemory>
    requires kept { All IsRestorable consumers.now }
{
    let mut cursors = Vec::new(alloc);
    for kept in consumers {
        let restored = Consumer::restore(alloc, kept)?;
        cursors.push(restored.cursor())?;
    }
    Ok(cursors)
}

/// Restores each of the consumers that a volume holds.
fn restore(alloc: Global, durable: &Durable) -> Result<Vec<u64>, NoMemory>
    requires formed { IsFormed durable.now }
    requires storable { IsStorable durable.now }
    requires openable { IsOpenable durable.now }
{
    law_restored();
    match &durable.body {
        Some(body) => restore_each(alloc, body.consumers.as_slice()),
        None => Ok(Vec::new(alloc)),
    }
}

#[test]
fn consumer_is_restored(rt: HostRuntime) -> Result<(), Fail> {
    let alloc = rt.alloc();
    let (_, durable) = Store::open(alloc, &mut volume(alloc)?)?;
    assert_eq!(rt; restore(alloc, &durable)?.as_slice(), [2].as_slice());
    Ok(())
}
