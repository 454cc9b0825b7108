//! Writing, reading and dropping message blocks.

ghost use Rattle.std.specs.Prelude.{◌≡◌, ◌+◌, ◌<◌, ◌≤◌, ◌^◌, ◌++◌, [], length, take, drop, OnOk, IfOk, IsErr, IsErrOf};
ghost use Rattle.vol_disk.specs.Images.{IsDurable};
ghost use Rattle.vol_disk.specs.Moments.{Quiet};
ghost use Rattle.js_base.specs.Causes.{HasCause};
ghost use Rattle.message_block.specs.Standing.{Stands};
ghost use Rattle.message_block.specs.Changing.{ChangesOnly, ChangesFrom};

use crate::fault::BlockFault;
use bytes::Bytes;
use js_base::{Blob, NoMemory, Spot};
use std::alloc::Global;
use vol_disk::{Failed, Vol};

/// Writes the bytes of one or more messages at an offset of the block, in which there is room for them, syncs it, and tells their spot. The bytes end below
/// 2^32.
///
/// At `Ok` a crash leaves what the block read as in front of the offset, and the bytes behind that. `Failed` comes only if the volume's count of
/// faults rose, and the block may then hold anything from the offset on. What stood in front of it stands at each moment of the call.
pub fn write<V: Vol>(vol: &mut V, file: u32, at: u32, bytes: &[u8]) -> Result<Spot, Failed>
    requires within { V.told → at + length bytes.now ≤ length ((V.disk vol.old).seen file) }
    requires short { at + length bytes.now < 2 ^ 32 }
    ensures spot { IfOk result (λ spot. spot ≡ record { file = file; at = at; len = length bytes.now }) }
    ensures stands { V.told → OnOk result (Stands (V.disk vol.new) file (take at ((V.disk vol.old).seen file) ++ bytes.now)) }
    ensures as_long { V.told → OnOk result (length ((V.disk vol.new).seen file) ≡ length ((V.disk vol.old).seen file)) }
    ensures changes { V.told → ChangesFrom file at (V.disk vol.old) (V.disk vol.new) }
    ensures cause { HasCause (V.faults vol.old) (V.faults vol.new) (IsErr result) }
    ensures refusals { V.refusals vol.old ≤ V.refusals vol.new }
    ensures later { (V.disk vol.old).moment ≤ (V.disk vol.new).moment }
{
    vol.write_at(file, at as u64, bytes)?;
    vol.sync(file)?;
    Ok(Spot {
        file,
        at,
        len: bytes.len() as u32,
    })
}

/// The bytes at a spot, which lies inside its file. They are read at once.
pub fn read<V: Vol>(alloc: Global, vol: &mut V, spot: Spot) -> Result<Blob, BlockFault>
    requires within { V.told → spot.at + spot.len ≤ length ((V.disk vol.old).seen spot.file) }
    ensures value { V.told → IfOk result (λ bytes. bytes ≡ take spot.len (drop spot.at ((V.disk vol.old).seen spot.file))) }
    // Of any volume:
    ensures len { IfOk result (λ bytes. length bytes ≡ spot.len) }
    ensures quiet { V.told → Quiet (V.disk vol.old) (V.disk vol.new) }
    ensures cause { HasCause (V.faults vol.old) (V.faults vol.new) (IsErrOf result BlockFault.Fault) }
    ensures refusals { V.refusals vol.old ≤ V.refusals vol.new }
    ensures later { (V.disk vol.old).moment ≤ (V.disk vol.new).moment }
{
    let mut bytes = Vec::new(alloc);
    if bytes.resize(spot.len as usize, 0).is_err() {
        return Err(BlockFault::NoMemory);
    }
    vol.read_at(spot.file, spot.at as u64, bytes.as_mut_slice())?;
    match Bytes::from_vec(bytes) {
        Ok(bytes) => Ok(Blob::from(bytes)),
        Err(_) => Err(BlockFault::NoMemory),
    }
}

/// Cuts the block to nothing, and syncs it, so that a crash leaves none of its bytes. `Failed` comes only if the volume's count of faults rose,
/// and a crash may then leave any part of the block.
pub fn drop_block<V: Vol>(vol: &mut V, file: u32) -> Result<(), Failed>
    ensures empty { V.told → OnOk result ((V.disk vol.new).seen file ≡ []) }
    ensures durable { V.told → OnOk result (IsDurable (V.disk vol.new) file) }
    ensures changes { V.told → ChangesOnly file (V.disk vol.old) (V.disk vol.new) }
    ensures cause { HasCause (V.faults vol.old) (V.faults vol.new) (IsErr result) }
    ensures refusals { V.refusals vol.old ≤ V.refusals vol.new }
    ensures later { (V.disk vol.old).moment ≤ (V.disk vol.new).moment }
{
    vol.cut(file, 0)?;
    vol.sync(file)
}
