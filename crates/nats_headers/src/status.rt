//! The blocks of status messages, by JetStream's status headers.

ghost use Rattle.std.specs.Prelude.{◌≡◌, ◌++◌, IfOk, OnOk};
ghost use Rattle.std.specs.List.{flat_map};
ghost use Rattle.js_base.specs.Status.{status, status_text, status_field};

use js_base::{Blob, NoMemory, put_bytes, put_decimal};
use std::alloc::Global;

/// Adds the text that follows the code, after a blank.
fn put_text(into: &mut Vec<u8>, text: &[u8]) -> Result<(), NoMemory>
    ensures ok { OnOk result (into.new.items ≡ into.old.items ++ status_text text.now) }
{
    if text.is_empty() {
        return Ok(());
    }
    put_bytes(into, b" ")?;
    put_bytes(into, text)
}

/// Adds a field's line.
fn put_field(into: &mut Vec<u8>, name: &[u8], n: u64) -> Result<(), NoMemory>
    ensures ok { OnOk result (into.new.items ≡ into.old.items ++ status_field (name.now, n)) }
{
    put_bytes(into, name)?;
    put_bytes(into, b": ")?;
    put_decimal(into, n)?;
    put_bytes(into, b"\r\n")
}

/// Adds the lines of the fields.
fn put_fields(into: &mut Vec<u8>, fields: &[(Blob, u64)]) -> Result<(), NoMemory>
    ensures ok { OnOk result (into.new.items ≡ into.old.items ++ flat_map status_field fields.now) }
{
    for (name, n) in fields {
        put_field(into, name.as_slice(), *n)?;
    }
    Ok(())
}

/// The header block of a status message: the code, a text if it is not empty, and a field for each name and number.
pub fn write_status(
    alloc: Global,
    code: u16,
    text: &[u8],
    fields: &[(Blob, u64)],
) -> Result<Blob, NoMemory>
    ensures block { IfOk result (λ block. block ≡ status code text.now fields.now) }
{
    let mut block = Vec::from_slice(alloc, b"NATS/1.0 ")?;
    put_decimal(&mut block, u64::from(code))?;
    put_text(&mut block, text)?;
    put_bytes(&mut block, b"\r\n")?;
    put_fields(&mut block, fields)?;
    put_bytes(&mut block, b"\r\n")?;
    Blob::of(alloc, block.as_slice())
}
