//! Files as a crash may have left them, drafted call by call.
//!
//! No contract speaks of a draft: what a crash may not leave is taken back when it is fitted to its file.

ghost use Rattle.std.specs.Prelude.{◌≡◌, ◌<◌, ◌≤◌};

use crate::call::{Call, Deed};
use crate::mem_file::{write_over, zeros};
use js_base::NoMemory;
use std::alloc::Global;

/// The next of a row of numbers that choose.
fn draw(drawn: &mut u64) -> u64 {
    *drawn = drawn.wrapping_add(0x9e37_79b9_7f4a_7c15);
    let mixed = (*drawn ^ (*drawn >> 30)).wrapping_mul(0xbf58_476d_1ce4_e5b9);
    let mixed = (mixed ^ (mixed >> 27)).wrapping_mul(0x94d0_49bb_1331_11eb);
    mixed ^ (mixed >> 31)
}

/// The pick of one file: 0 and 1 are those of each file, and another pick draws for each file anew, also 0 or 1.
pub fn pick_of_file(pick: u64, drawn: &mut u64) -> u64
    ensures fixed { pick < 2 → result ≡ pick }
{
    if pick < 2 {
        return pick;
    }
    let drawn = draw(drawn);
    match drawn % 8 {
        0 => 0,
        1 => 1,
        _ => drawn,
    }
}

/// How many of so many bytes reached the disk: none, all or some first ones.
fn part(count: usize, drawn: u64) -> usize
    ensures within { result ≤ count }
{
    match drawn % 3 {
        0 => 0,
        1 => count,
        _ => (drawn / 3) as usize % count.max(1),
    }
}

/// The first bytes of a write that reached the disk. At times they are any bytes.
fn piece(alloc: Global, bytes: &[u8], drawn: &mut u64) -> Result<Vec<u8>, NoMemory> {
    let count = part(bytes.len(), draw(drawn));
    let mut piece = Vec::from_slice(alloc, &bytes[..count])?;
    if draw(drawn) % 4 == 0 {
        for byte in piece.iter_mut() {
            *byte = (draw(drawn) & 0xff) as u8;
        }
    }
    Ok(piece)
}

/// Writes some part of the bytes. What is before them and is not there is zeros.
fn draft_write(
    alloc: Global,
    draft: &mut Vec<u8>,
    at: usize,
    bytes: &[u8],
    drawn: &mut u64,
) -> Result<(), NoMemory> {
    let piece = piece(alloc, bytes, drawn)?;
    if piece.is_empty() {
        return Ok(());
    }
    if draft.len() < at {
        draft.resize(at, 0)?;
    }
    write_over(draft, at, piece.as_slice())
}

/// Does some part of a call.
fn draft_call(
    alloc: Global,
    draft: &mut Vec<u8>,
    deed: &Deed,
    drawn: &mut u64,
) -> Result<(), NoMemory> {
    match deed {
        Deed::Write { at, bytes } => draft_write(
            alloc,
            draft,
            *at as usize,
            bytes.as_slice(),
            drawn,
        ),
        Deed::Grow { count } => {
            let zeros = zeros(alloc, *count)?;
            draft_write(alloc, draft, draft.len(), zeros.as_slice(), drawn)
        }
        Deed::Cut { to } => {
            if draw(drawn) % 2 == 0 {
                draft.truncate(*to as usize);
            }
            Ok(())
        }
        Deed::Len | Deed::Read { at: _, count: _ } | Deed::Sync | Deed::End => Ok(()),
    }
}

/// How many calls there are before the last sync of the file that was done, or none.
fn count_synced(number: u32, calls: &[Call]) -> usize {
    let mut count = 0;
    for (place, call) in calls.iter().enumerate() {
        let is_sync = matches!(&call.deed, Deed::Sync);
        if call.file == number && call.is_done && is_sync {
            count = place;
        }
    }
    count
}

/// The file with this number, from what it was at its last sync, after some part of each call on it since then.
pub fn draft(
    alloc: Global,
    synced: &[u8],
    number: u32,
    calls: &[Call],
    pick: u64,
) -> Result<Vec<u8>, NoMemory> {
    let mut drawn = pick;
    let mut draft = Vec::from_slice(alloc, synced)?;
    for call in calls.iter().skip(count_synced(number, calls)) {
        if call.file == number {
            draft_call(alloc, &mut draft, &call.deed, &mut drawn)?;
        }
    }
    Ok(draft)
}
