//! Files that are made longer, and emptied.

use vol_disk::{DirVol, Room, Vol, make_room, whole_chunks};

/// Makes one chunk of room in each of so many files, until there is none, and tells how many got it.
pub(crate) fn make(vol: &mut DirVol, files: u32) -> Option<u64> {
    for file in 0..files {
        let len = vol.len(file).ok()?;
        let end = whole_chunks(vol, len.checked_add(1)?);
        if make_room(vol, file, len, end).ok()? == Room::Refused {
            return Some(u64::from(file));
        }
    }
    Some(u64::from(files))
}

/// Cuts so many files to nothing, and tells how many.
pub(crate) fn clear(vol: &mut DirVol, files: u32) -> Option<u64> {
    for file in 0..files {
        vol.cut(file, 0).ok()?;
    }
    vol.sync(0).ok()?;
    Some(u64::from(files))
}
