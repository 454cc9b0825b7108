//! Rows that damage a volume.

use crate::line::{LineFault, number, spelled_bytes, split_word};
use crate::volume::{Volume, file_number};
use js_base::Blob;
use std::alloc::Global;

/// Makes a change of the file that has the part which is named first.
fn make(alloc: Global, volume: &mut Volume, change: &[u8]) -> Result<(), LineFault> {
    let (word, rest) = split_word(change);
    let (name, text) = split_word(rest);
    let file = volume.file_of(name)?;
    match word {
        b"put" => file.put(name, spelled_bytes(alloc, text)?),
        b"say" => file.put(name, Blob::of(alloc, text)?),
        b"end" => file.end_batch(alloc, name, number(text)?),
        b"without" if text.is_empty() => file.leave_out(name),
        b"twice" if text.is_empty() => file.double(name),
        b"exchange" => file.exchange(name, text),
        b"cut" => file.cut(name, number(text)?),
        b"move" => {
            file.number = file_number(text)?;
            Ok(())
        }
        _ => Err(LineFault::Bad),
    }
}

/// The volume with a row's changes.
pub(crate) fn damaged(alloc: Global, volume: &Volume, row: &[u8]) -> Result<Volume, LineFault> {
    let mut volume = volume.try_clone(alloc)?;
    for change in row.split(|byte| *byte == b';') {
        let change = change.strip_prefix(b" ").unwrap_or(change);
        if !change.is_empty() {
            make(alloc, &mut volume, change)?;
        }
    }
    Ok(volume)
}
