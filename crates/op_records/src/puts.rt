//! The fields of records as they are written.

ghost use Rattle.std.specs.Prelude.{◌≡◌, ◌++◌, ◌∷◌, [], length, IsTrue, OnOk};
ghost use Rattle.std.specs.List.{flat_map};
ghost use Rattle.js_model.specs.Configs.{is_name, is_stream_config, is_consumer_config};
ghost use Rattle.op_records.specs.Allowed.{is_spot, is_text};
ghost use Rattle.op_records.specs.Spelling.{number, short, text, long, numbers, spelled_spot};
ghost use Rattle.checksum.specs.Checked.{checked};
ghost use Rattle.config_texts.specs.Texts.{stream_text, consumer_text};

use checksum::crc32c;
use config_texts::{consumer_text, stream_text};
use js_base::{Blob, List, NoMemory, Spot, put_bytes, put_u16, put_u32, put_u64};
use js_model::{ConsumerConfig, StreamConfig};
use std::alloc::Global;

/// Adds the byte of a kind.
pub fn put_kind(into: &mut Vec<u8>, kind: u8) -> Result<(), NoMemory>
    ensures ok { OnOk result (into.new.items ≡ into.old.items ++ kind ∷ []) }
{
    put_bytes(into, &[kind])
}

/// Adds two numbers.
pub fn put_two(into: &mut Vec<u8>, first: u64, second: u64) -> Result<(), NoMemory>
    ensures ok { OnOk result (into.new.items ≡ into.old.items ++ (number first ++ number second)) }
{
    put_u64(into, first)?;
    put_u64(into, second)
}

/// Adds a name behind a length of one byte.
pub fn put_name(into: &mut Vec<u8>, name: &[u8]) -> Result<(), NoMemory>
    requires name { IsTrue (is_name name.now) }
    ensures ok { OnOk result (into.new.items ≡ into.old.items ++ short name.now) }
{
    put_bytes(into, &[name.len() as u8])?;
    put_bytes(into, name)
}

/// Adds a text behind a length of two bytes.
pub fn put_text(into: &mut Vec<u8>, bytes: &Blob) -> Result<(), NoMemory>
    requires text { IsTrue (is_text bytes.now) }
    ensures ok { OnOk result (into.new.items ≡ into.old.items ++ text bytes.now) }
{
    put_u16(into, bytes.len() as u16)?;
    put_bytes(into, bytes.as_slice())
}

/// Adds bytes behind a length of four. Bytes that are longer than such a length can say find no memory.
pub(crate) fn put_long(into: &mut Vec<u8>, bytes: &[u8]) -> Result<(), NoMemory>
    ensures ok { OnOk result (into.new.items ≡ into.old.items ++ long bytes.now) }
{
    let Ok(count) = u32::try_from(bytes.len()) else {
        return Err(NoMemory);
    };
    put_u32(into, count)?;
    put_bytes(into, bytes)
}

/// Adds bytes behind their length and their checksum. Bytes that are longer than such a length can say find no memory.
pub(crate) fn put_checked(into: &mut Vec<u8>, bytes: &[u8]) -> Result<(), NoMemory>
    ensures ok { OnOk result (into.new.items ≡ into.old.items ++ checked bytes.now) }
{
    let Ok(count) = u32::try_from(bytes.len()) else {
        return Err(NoMemory);
    };
    put_u32(into, count)?;
    put_u32(into, crc32c(bytes))?;
    put_bytes(into, bytes)
}

/// Adds each of the numbers.
fn put_each(into: &mut Vec<u8>, numbers: &[u64]) -> Result<(), NoMemory>
    ensures ok { OnOk result (into.new.items ≡ into.old.items ++ flat_map number numbers.now) }
{
    for n in numbers {
        put_u64(into, *n)?;
    }
    Ok(())
}

/// Adds numbers behind their count. More than such a count can say find no memory.
pub fn put_numbers(into: &mut Vec<u8>, list: &List<u64>) -> Result<(), NoMemory>
    ensures ok { OnOk result (into.new.items ≡ into.old.items ++ numbers list.now) }
{
    let Ok(count) = u32::try_from(list.len()) else {
        return Err(NoMemory);
    };
    put_u32(into, count)?;
    put_each(into, list.as_slice())
}

/// Adds the text of a stream's configuration.
pub fn put_stream_config(
    alloc: Global,
    into: &mut Vec<u8>,
    config: &StreamConfig,
) -> Result<(), NoMemory>
    requires valid { IsTrue (is_stream_config config.now) }
    ensures ok { OnOk result (into.new.items ≡ into.old.items ++ long (stream_text config.now)) }
{
    let text: Blob = stream_text(alloc, config)?;
    put_long(into, text.as_slice())
}

/// Adds the text of a consumer's configuration.
pub fn put_consumer_config(
    alloc: Global,
    into: &mut Vec<u8>,
    config: &ConsumerConfig,
) -> Result<(), NoMemory>
    requires valid { IsTrue (is_consumer_config config.now) }
    ensures ok { OnOk result (into.new.items ≡ into.old.items ++ long (consumer_text config.now)) }
{
    let text: Blob = consumer_text(alloc, config)?;
    put_long(into, text.as_slice())
}

/// Adds where a message lies.
pub fn put_spot(into: &mut Vec<u8>, spot: Spot) -> Result<(), NoMemory>
    requires spot { IsTrue (is_spot spot) }
    ensures ok { OnOk result (into.new.items ≡ into.old.items ++ spelled_spot spot) }
{
    put_u16(into, spot.file as u16)?;
    put_u32(into, spot.at)?;
    put_u32(into, spot.len)
}
