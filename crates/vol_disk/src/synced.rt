//! Changes of a durable file that end with its sync.

ghost use Rattle.std.specs.Prelude.{◌≡◌, ◌+◌, ◌≤◌, length, take, OnOk, IsErr};
ghost use Rattle.vol_disk.specs.Images.{IsDurable};
ghost use Rattle.vol_disk.specs.Steps.{written, Torn, CutTo};
ghost use Rattle.vol_disk.specs.Synced.{DoesSynced};
ghost use Rattle.js_base.specs.Causes.{HasCause};

use crate::failed::Failed;
use crate::vol::Vol;

/// Writes the bytes to a durable file, and syncs it. A crash at any moment of the call leaves what the
/// file was after some part of the write.
pub fn write_synced<V: Vol>(vol: &mut V, file: u32, at: u64, bytes: &[u8]) -> Result<(), Failed>
    requires within { V.told → at + length bytes.now ≤ length ((V.disk vol.old).seen file) }
    requires durable { V.told → IsDurable (V.disk vol.old) file }
    ensures seen { V.told → OnOk result ((V.disk vol.new).seen file ≡ written at bytes.now ((V.disk vol.old).seen file)) }
    ensures durable { V.told → OnOk result (IsDurable (V.disk vol.new) file) }
    ensures does { V.told → DoesSynced file (Torn at (length bytes.now)) (V.disk vol.old) (V.disk vol.new) }
    ensures cause { HasCause (V.faults vol.old) (V.faults vol.new) (IsErr result) }
    ensures refusals { V.refusals vol.old ≤ V.refusals vol.new }
    ensures later { (V.disk vol.old).moment ≤ (V.disk vol.new).moment }
{
    match vol.write_at(file, at, bytes) {
        Ok(()) => vol.sync(file),
        Err(failed) => Err(failed),
    }
}

/// Cuts a durable file, and syncs it. A crash at any moment of the call leaves what the file was after
/// some part of the cut.
pub fn cut_synced<V: Vol>(vol: &mut V, file: u32, to: u64) -> Result<(), Failed>
    requires within { V.told → to ≤ length ((V.disk vol.old).seen file) }
    requires durable { V.told → IsDurable (V.disk vol.old) file }
    ensures seen { V.told → OnOk result ((V.disk vol.new).seen file ≡ take to ((V.disk vol.old).seen file)) }
    ensures durable { V.told → OnOk result (IsDurable (V.disk vol.new) file) }
    ensures does { V.told → DoesSynced file (CutTo to) (V.disk vol.old) (V.disk vol.new) }
    ensures cause { HasCause (V.faults vol.old) (V.faults vol.new) (IsErr result) }
    ensures refusals { V.refusals vol.old ≤ V.refusals vol.new }
    ensures later { (V.disk vol.old).moment ≤ (V.disk vol.new).moment }
{
    match vol.cut(file, to) {
        Ok(()) => vol.sync(file),
        Err(failed) => Err(failed),
    }
}
