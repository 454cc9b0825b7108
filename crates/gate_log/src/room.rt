//! Room in a log file.

ghost use Rattle.std.specs.Prelude.{◌≡◌, ◌<◌, ◌≤◌, max, min, IfOk, IsErr, IsOkAnd, OnOk, length};
ghost use Rattle.vol_disk.specs.Images.{IsDurable};
ghost use Rattle.vol_disk.specs.Growing.{HasRoom, IsRefused};
ghost use Rattle.js_base.specs.Causes.{HasCause};
ghost use Rattle.gate_log.specs.Growing.{EndsBefore, GrowsTo, IsHeaded, KeepsOpen, LeavesOpen};

use crate::ends::FIRST_GATE;
use crate::head::empty_log;
use crate::log::GateLog;
use vol_disk::{Failed, Room, Vol, cut_synced, make_room, write_synced};

/// How long the file of a log without batches is at least: its head, and the first gate.
const EMPTY_LEN: u64 = FIRST_GATE + 1;

/// Writes a head of generation 0 and a closed gate into a file that is so long, if there is room for them.
fn write_head<V: Vol>(vol: &mut V, file: u32, len: u64) -> Result<Room, Failed>
    requires short { len ≤ 21 }
    requires len { V.told → len ≡ length ((V.disk vol.old).seen file) }
    requires durable { V.told → IsDurable (V.disk vol.old) file }
    ensures headed { V.told → IfOk result (λ room. IsHeaded room ((V.disk vol.new).seen file)) }
    ensures longer { V.told → OnOk result (length ((V.disk vol.old).seen file) ≤ length ((V.disk vol.new).seen file)) }
    ensures durable { V.told → OnOk result (IsDurable (V.disk vol.new) file) }
    ensures any_moment { V.told → LeavesOpen file (V.disk vol.old) (V.disk vol.new) }
    ensures lengths { V.told → GrowsTo file 21 (V.disk vol.old) (V.disk vol.new) }
    ensures refused { HasCause (V.refusals vol.old) (V.refusals vol.new) (IsRefused result) }
    ensures cause { HasCause (V.faults vol.old) (V.faults vol.new) (IsErr result) }
    ensures later { (V.disk vol.old).moment ≤ (V.disk vol.new).moment }
{
    match make_room(vol, file, len, EMPTY_LEN)? {
        Room::Made => {}
        Room::Refused => return Ok(Room::Refused),
    }
    write_synced(vol, file, 0, &empty_log(0))?;
    Ok(Room::Made)
}

/// Makes a log file, which is so long, longer up to an offset, if there is room. One of at most 21 bytes gets a head before.
fn extend<V: Vol>(vol: &mut V, file: u32, len: u64, end: u64) -> Result<Room, Failed>
    requires len { V.told → len ≡ length ((V.disk vol.old).seen file) }
    requires head { 21 ≤ end }
    requires durable { V.told → IsDurable (V.disk vol.old) file }
    ensures room { V.told → IfOk result (λ room. HasRoom end room ((V.disk vol.new).seen file)) }
    ensures longer { V.told → OnOk result (length ((V.disk vol.old).seen file) ≤ length ((V.disk vol.new).seen file)) }
    ensures size { V.told → OnOk result (length ((V.disk vol.new).seen file) ≤ max end (length ((V.disk vol.old).seen file))) }
    ensures keeps { V.told → OnOk result (KeepsOpen ((V.disk vol.old).seen file) ((V.disk vol.new).seen file)) }
    ensures durable { V.told → OnOk result (IsDurable (V.disk vol.new) file) }
    ensures any_moment { V.told → LeavesOpen file (V.disk vol.old) (V.disk vol.new) }
    ensures lengths { V.told → GrowsTo file end (V.disk vol.old) (V.disk vol.new) }
    ensures refused { HasCause (V.refusals vol.old) (V.refusals vol.new) (IsRefused result) }
    ensures cause { HasCause (V.faults vol.old) (V.faults vol.new) (IsErr result) }
    ensures later { (V.disk vol.old).moment ≤ (V.disk vol.new).moment }
{
    if len > EMPTY_LEN {
        return make_room(vol, file, len, end);
    }
    match write_head(vol, file, len)? {
        Room::Made => make_room(vol, file, EMPTY_LEN, end),
        Room::Refused => Ok(Room::Refused),
    }
}

impl GateLog {
    /// Makes a durable log file long enough to reach an offset, if there is room on the disk, and tells how long it is at least then. That is less than the offset
    /// only if the volume refused room. A file of 21 bytes or fewer first gets a head of generation 0 and a closed gate, behind which any bytes hold nothing.
    ///
    /// What batches are open stays, at any moment of the call and for each crash. `Failed` comes if the volume fails. Other files are not touched.
    pub fn make_room<V: Vol>(vol: &mut V, file: u32, end: u64) -> Result<u64, Failed>
        requires head { 21 ≤ end }
        requires durable { V.told → IsDurable (V.disk vol.old) file }
        ensures room { V.told → IfOk result (λ len. len ≤ length ((V.disk vol.new).seen file)) }
        ensures longer { V.told → OnOk result (length ((V.disk vol.old).seen file) ≤ length ((V.disk vol.new).seen file)) }
        ensures size { V.told → OnOk result (length ((V.disk vol.new).seen file) ≤ max end (length ((V.disk vol.old).seen file))) }
        ensures keeps { V.told → OnOk result (KeepsOpen ((V.disk vol.old).seen file) ((V.disk vol.new).seen file)) }
        ensures durable { V.told → OnOk result (IsDurable (V.disk vol.new) file) }
        ensures any_moment { V.told → LeavesOpen file (V.disk vol.old) (V.disk vol.new) }
        ensures lengths { V.told → GrowsTo file end (V.disk vol.old) (V.disk vol.new) }
        ensures refused { HasCause (V.refusals vol.old) (V.refusals vol.new) (IsOkAnd result (λ len. len < end)) }
        ensures cause { HasCause (V.faults vol.old) (V.faults vol.new) (IsErr result) }
        ensures later { (V.disk vol.old).moment ≤ (V.disk vol.new).moment }
    {
        let len = vol.len(file)?;
        if end <= len {
            return Ok(len);
        }
        match extend(vol, file, len, end)? {
            Room::Made => Ok(end),
            Room::Refused => vol.len(file),
        }
    }

    /// Cuts a durable log file that is longer than so many bytes to them, and syncs it. They reach behind the gate after its batches.
    ///
    /// What batches are open stays, at any moment of the call and for each crash. `Failed` comes if the volume fails. Other files are not touched.
    pub fn trim<V: Vol>(vol: &mut V, file: u32, to: u64) -> Result<(), Failed>
        requires behind { V.told → EndsBefore to ((V.disk vol.old).seen file) }
        requires durable { V.told → IsDurable (V.disk vol.old) file }
        ensures len { V.told → OnOk result (length ((V.disk vol.new).seen file) ≡ min to (length ((V.disk vol.old).seen file))) }
        ensures keeps { V.told → OnOk result (KeepsOpen ((V.disk vol.old).seen file) ((V.disk vol.new).seen file)) }
        ensures durable { V.told → OnOk result (IsDurable (V.disk vol.new) file) }
        ensures any_moment { V.told → LeavesOpen file (V.disk vol.old) (V.disk vol.new) }
        ensures cause { HasCause (V.faults vol.old) (V.faults vol.new) (IsErr result) }
        ensures refusals { V.refusals vol.old ≤ V.refusals vol.new }
        ensures later { (V.disk vol.old).moment ≤ (V.disk vol.new).moment }
    {
        if vol.len(file)? > to {
            cut_synced(vol, file, to)
        } else {
            Ok(())
        }
    }
}
