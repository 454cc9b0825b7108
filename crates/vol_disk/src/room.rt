//! Room in a file, which is made before it is written.

ghost use Rattle.std.specs.Prelude.{◌≡◌, ◌+◌, ◌≤◌, ◌^◌, length, IfOk, IsErr, OnOk};
ghost use Rattle.vol_disk.specs.Images.{IsDurable};
ghost use Rattle.vol_disk.specs.Growing.{ExtendsAt, HasRoom, IsExtended, IsRefused};
ghost use Rattle.js_base.specs.Causes.{HasCause};

use crate::failed::Failed;
use crate::vol::Vol;

/// How many bytes a file grows by at once, at most.
const MOST_AT_ONCE: u64 = 1 << 20;

/// What a volume answers that is asked for room.
#[derive(Clone, Copy, Debug, PartialEq, Eq)]
pub enum Room {
    /// It is there, and a write of it needs no more.
    Made,
    /// There is none.
    Refused,
}

/// The least number of bytes that is not below this one and a multiple of the volume's chunk, or 2^64 - 1 if that is less.
pub fn whole_chunks<V: Vol>(vol: &V, len: u64) -> u64
    ensures reaches { len ≤ result }
    ensures near { result ≤ len + 2 ^ 20 }
{
    let chunk = u64::from(vol.chunk());
    len.div_ceil(chunk).saturating_mul(chunk)
}

/// Makes a file, whose length is `len`, at least `end` bytes long, if there is room: by zeros behind its end, 1 MiB at a time, and a sync. Of a file that is so
/// long already nothing is asked. Zeros that were written before there was no more room stay.
///
/// At `Ok` the file reads as before, with zeros behind, and a durable file is durable again. A crash at any moment of the call leaves what it might have left
/// before, with any bytes behind the old end.
pub fn make_room<V: Vol>(vol: &mut V, file: u32, len: u64, end: u64) -> Result<Room, Failed>
    requires len { V.told → len ≡ length ((V.disk vol.old).seen file) }
    ensures room { V.told → IfOk result (λ room. HasRoom end room ((V.disk vol.new).seen file)) }
    ensures seen { V.told → OnOk result (IsExtended ((V.disk vol.old).seen file) ((V.disk vol.new).seen file)) }
    ensures durable { V.told → IsDurable (V.disk vol.old) file → OnOk result (IsDurable (V.disk vol.new) file) }
    ensures extends { V.told → ExtendsAt file end (V.disk vol.old) (V.disk vol.new) }
    ensures cause { HasCause (V.faults vol.old) (V.faults vol.new) (IsErr result) }
    ensures refused { HasCause (V.refusals vol.old) (V.refusals vol.new) (IsRefused result) }
    ensures later { (V.disk vol.old).moment ≤ (V.disk vol.new).moment }
{
    if end <= len {
        return Ok(Room::Made);
    }
    let room = grow_to(vol, file, len, end)?;
    vol.sync(file)?;
    Ok(room)
}

/// Grows a file, whose length is `len`, until it is `end` bytes long, or there is no more room.
fn grow_to<V: Vol>(vol: &mut V, file: u32, len: u64, end: u64) -> Result<Room, Failed>
    requires len { V.told → len ≡ length ((V.disk vol.old).seen file) }
    ensures room { V.told → IfOk result (λ room. HasRoom end room ((V.disk vol.new).seen file)) }
    ensures seen { V.told → OnOk result (IsExtended ((V.disk vol.old).seen file) ((V.disk vol.new).seen file)) }
    ensures extends { V.told → ExtendsAt file end (V.disk vol.old) (V.disk vol.new) }
    ensures cause { HasCause (V.faults vol.old) (V.faults vol.new) (IsErr result) }
    ensures refused { HasCause (V.refusals vol.old) (V.refusals vol.new) (IsRefused result) }
    ensures later { (V.disk vol.old).moment ≤ (V.disk vol.new).moment }
{
    let mut at = len;
    while at < end {
        let count = (end - at).min(MOST_AT_ONCE);
        match vol.grow(file, count as u32)? {
            Room::Made => at += count,
            Room::Refused => return Ok(Room::Refused),
        }
    }
    Ok(Room::Made)
}
