//! What the tests of volumes share.

use std::alloc::Global;
use std::test::Fail;
use vol_disk::{Call, Deed, Failed, Room, Vol, make_room};

/// Makes a file so long, if there is room.
pub fn reach<V: Vol>(vol: &mut V, file: u32, end: u64) -> Result<Room, Failed> {
    let len = vol.len(file)?;
    make_room(vol, file, len, end)
}

/// Cuts a file to a length, or leaves it where it is shorter.
pub fn cut<V: Vol>(vol: &mut V, file: u32, to: u64) -> Result<(), Failed> {
    let len = vol.len(file)?;
    vol.cut(file, len.min(to))
}

/// Whether the file holds these bytes.
pub fn holds<V: Vol>(alloc: Global, vol: &mut V, file: u32, wanted: &[u8]) -> Result<bool, Fail> {
    let len = vol.len(file)?;
    let mut bytes = vec![in alloc; 0u8; len as usize]?;
    vol.read_at(file, 0, &mut bytes)?;
    Ok(bytes.as_slice() == wanted)
}

/// The letter of a call.
fn letter(deed: &Deed) -> u8 {
    match deed {
        Deed::Len => b'l',
        Deed::Read { at: _, count: _ } => b'r',
        Deed::Write { at: _, bytes: _ } => b'w',
        Deed::Grow { count: _ } => b'g',
        Deed::Cut { to: _ } => b'c',
        Deed::Sync => b's',
        Deed::End => b'e',
    }
}

/// Whether the calls are those of the text: a letter for each, a capital where it was not done.
pub fn are_spelled(calls: &[Call], text: &[u8]) -> bool {
    if calls.len() != text.len() {
        return false;
    }
    for (call, wanted) in calls.iter().zip(text.iter()) {
        let is_same = letter(&call.deed) == wanted.to_ascii_lowercase();
        if !is_same || call.is_done != wanted.is_ascii_lowercase() {
            return false;
        }
    }
    true
}
