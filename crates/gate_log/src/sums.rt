//! The checksum of bytes of a file.

ghost use Rattle.std.specs.Prelude.{◌≡◌, ◌+◌, ◌<◌, ◌≤◌, ◌^◌, IfOk, IsErr, length, take, drop};
ghost use Rattle.vol_disk.specs.Moments.{Quiet};
ghost use Rattle.js_base.specs.Causes.{HasCause};
ghost use Rattle.checksum.specs.Crc.{added, crc32c};

use crate::gates::read;
use checksum::Checksum;
use vol_disk::{Failed, Vol};

/// How many bytes are read at a time.
const PIECE: usize = 4096;

/// Adds as many of the bytes at an offset as are read at a time, of so many that there are, and tells how many were added.
fn add_piece<V: Vol>(
    vol: &mut V,
    file: u32,
    at: u64,
    count: u64,
    sum: &mut Checksum,
) -> Result<u64, Failed>
    requires within { V.told → at + count ≤ length ((V.disk vol.old).seen file) }
    requires some { 0 < count }
    ensures size { IfOk result (λ size. (0 < size) × (size ≤ count)) }
    ensures value { V.told → IfOk result (λ size. sum.new ≡ added sum.old (take size (drop at ((V.disk vol.old).seen file)))) }
    ensures quiet { V.told → Quiet (V.disk vol.old) (V.disk vol.new) }
    ensures cause { HasCause (V.faults vol.old) (V.faults vol.new) (IsErr result) }
    ensures refusals { V.refusals vol.old ≤ V.refusals vol.new }
    ensures later { (V.disk vol.old).moment ≤ (V.disk vol.new).moment }
{
    let size = count.min(PIECE as u64);
    let mut bytes = [0; PIECE];
    let piece = &mut bytes[..size as usize];
    read(vol, file, at, piece)?;
    sum.add(piece);
    Ok(size)
}

/// The checksum of so many bytes at an offset. It takes no memory.
pub fn checksum_at<V: Vol>(vol: &mut V, file: u32, at: u64, count: u64) -> Result<u32, Failed>
    requires within { V.told → at + count ≤ length ((V.disk vol.old).seen file) }
    requires end { at + count < 2 ^ 64 }
    ensures value { V.told → IfOk result (λ sum. sum ≡ crc32c (take count (drop at ((V.disk vol.old).seen file)))) }
    ensures quiet { V.told → Quiet (V.disk vol.old) (V.disk vol.new) }
    ensures cause { HasCause (V.faults vol.old) (V.faults vol.new) (IsErr result) }
    ensures refusals { V.refusals vol.old ≤ V.refusals vol.new }
    ensures later { (V.disk vol.old).moment ≤ (V.disk vol.new).moment }
{
    let mut sum = Checksum::new();
    let mut done = 0;
    while done < count {
        done += add_piece(vol, file, at + done, count - done, &mut sum)?;
    }
    Ok(sum.value())
}
