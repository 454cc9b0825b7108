//! Room that is made in the files of a store, and given back.

ghost use Rattle.std.specs.Prelude.{◌≡◌, ◌+◌, ◌-◌, ◌<◌, ◌≤◌, ◌≢◌, ◌^◌, false, nat_le, Ok, IfOk, IsErr, IsOkAnd, MatchOption, OnOk, length, min};
ghost use Rattle.js_base.specs.Causes.{HasCause};
ghost use Rattle.vol_disk.specs.Does.{Rests};
ghost use Rattle.vol_disk.specs.Images.{IsDurable};
ghost use Rattle.stream_store.specs.Base.{KeepsBases, LeavesBases};
ghost use Rattle.gate_log.specs.Growing.{EndsBefore};
ghost use Rattle.stream_store.specs.Clearing.{KeepsClosed};
ghost use Rattle.stream_store.specs.Placing.{IsMessageSpot};
ghost use Rattle.stream_store.specs.Rooms.{AreLogsShort, AreLonger, AreMore, AreReserved, AreRooms, OutgrowsLogs, is_reserved, room_of, spare, trim_limit as trim_limit_in};

use crate::rooms::{MAX_LOG, Rooms, SPARE, file_len};
use block_table::Block;
use gate_log::GateLog;
use js_base::Spot;
use vol_disk::{Failed, Room, Vol, make_room, whole_chunks};

/// How many bytes a block has at most, unless its first message has more.
const MAX_BLOCK: u64 = 8_388_608;

/// How much longer than twice what its place comes to a log stays as it is left.
const TRIM_MARGIN: u64 = 1 << 23;

/// Makes a log at least so long, if there is room, by whole chunks, and tells whether it is known to be.
pub(crate) fn lengthen<V: Vol>(
    vol: &mut V,
    rooms: &mut Rooms,
    file: u32,
    end: u64,
) -> Result<bool, Failed>
    requires low { V.told → file < 2 }
    requires head { 21 ≤ end }
    requires short { end ≤ 2 ^ 31 }
    requires logs { AreLogsShort rooms.old }
    requires durable { V.told → IsDurable (V.disk vol.old) file }
    ensures value { IfOk result (λ made. made ≡ nat_le end (room_of rooms.new file)) }
    ensures more { AreMore rooms.old rooms.new }
    ensures reach { rooms.new.reach ≡ rooms.old.reach }
    ensures logs { AreLogsShort rooms.new }
    ensures known { V.told → AreRooms rooms.old (V.disk vol.old) → OnOk result (AreRooms rooms.new (V.disk vol.new)) }
    ensures durable { V.told → OnOk result (IsDurable (V.disk vol.new) file) }
    ensures keeps { V.told → OnOk result (KeepsBases (V.disk vol.old) (V.disk vol.new)) }
    ensures closed { V.told → OnOk result (KeepsClosed (V.disk vol.old) (V.disk vol.new)) }
    ensures longer { V.told → OnOk result (AreLonger (V.disk vol.old) (V.disk vol.new)) }
    ensures any_moment { V.told → LeavesBases (V.disk vol.old) (V.disk vol.new) }
    ensures elsewhere { V.told → (other : _) → other ≢ file → Rests other (V.disk vol.old) (V.disk vol.new) }
    ensures refused { HasCause (V.refusals vol.old) (V.refusals vol.new) (result ≡ Ok false) }
    ensures cause { HasCause (V.faults vol.old) (V.faults vol.new) (IsErr result) }
    ensures later { (V.disk vol.old).moment ≤ (V.disk vol.new).moment }
{
    let known = rooms.of(file);
    if end <= known {
        return Ok(true);
    }
    let chunks = whole_chunks(vol, end).min(MAX_LOG);
    let made = GateLog::make_room(vol, file, chunks)?;
    let len = made.min(MAX_LOG).max(known);
    rooms.set(file, len);
    Ok(end <= len)
}

/// How long both logs are made for a place that comes to so much, unless no log is made so long.
fn reserved_len(count: u64) -> Option<u64>
    ensures value { MatchOption result (OutgrowsLogs count) (λ len. (len ≡ count + spare) × (len ≤ 2 ^ 31)) }
{
    let len = count.checked_add(SPARE)?;
    if len <= MAX_LOG { Some(len) } else { None }
}

/// Makes both logs long enough for a place that comes to so much, if there is room, and tells whether they are known to be. It asks for nothing if a log would be
/// longer than 2^31.
pub(crate) fn reserve_logs<V: Vol>(
    vol: &mut V,
    rooms: &mut Rooms,
    count: u64,
) -> Result<bool, Failed>
    requires logs { AreLogsShort rooms.old }
    requires durable { V.told → IsDurable (V.disk vol.old) 0 × IsDurable (V.disk vol.old) 1 }
    ensures reserved { IfOk result (λ reserved. reserved ≡ is_reserved rooms.new count) }
    ensures more { AreMore rooms.old rooms.new }
    ensures reach { rooms.new.reach ≡ rooms.old.reach }
    ensures logs { AreLogsShort rooms.new }
    ensures known { V.told → AreRooms rooms.old (V.disk vol.old) → OnOk result (AreRooms rooms.new (V.disk vol.new)) }
    ensures keeps { V.told → OnOk result (KeepsBases (V.disk vol.old) (V.disk vol.new)) }
    ensures closed { V.told → OnOk result (KeepsClosed (V.disk vol.old) (V.disk vol.new)) }
    ensures longer { V.told → OnOk result (AreLonger (V.disk vol.old) (V.disk vol.new)) }
    ensures any_moment { V.told → LeavesBases (V.disk vol.old) (V.disk vol.new) }
    ensures elsewhere { V.told → (file : _) → 2 ≤ file → Rests file (V.disk vol.old) (V.disk vol.new) }
    ensures refused { ¬ OutgrowsLogs count → HasCause (V.refusals vol.old) (V.refusals vol.new) (result ≡ Ok false) }
    ensures refusals { V.refusals vol.old ≤ V.refusals vol.new }
    ensures cause { HasCause (V.faults vol.old) (V.faults vol.new) (IsErr result) }
    ensures later { (V.disk vol.old).moment ≤ (V.disk vol.new).moment }
{
    if rooms.is_reserved(count) {
        return Ok(true);
    }
    let Some(len) = reserved_len(count) else {
        return Ok(false);
    };
    let zero = lengthen(vol, rooms, 0, len)?;
    if !zero {
        return Ok(false);
    }
    let one = lengthen(vol, rooms, 1, len)?;
    Ok(one)
}

/// How long a log stays at most as it is left, if the place comes to so much.
pub(crate) fn trim_limit(count: u64) -> u64
    requires small { count ≤ 2 ^ 31 }
    ensures value { result ≡ trim_limit_in count }
{
    TRIM_MARGIN + 2 * (count + SPARE)
}

/// Cuts a log that is known to be longer than so many bytes to them. They reach behind the gate after its batches.
pub(crate) fn trim_log<V: Vol>(
    vol: &mut V,
    rooms: &mut Rooms,
    file: u32,
    limit: u64,
) -> Result<(), Failed>
    requires low { V.told → file < 2 }
    requires ends { V.told → EndsBefore limit ((V.disk vol.old).seen file) }
    requires durable { V.told → IsDurable (V.disk vol.old) file }
    ensures reach { rooms.new.reach ≡ rooms.old.reach }
    ensures logs { AreLogsShort rooms.old → AreLogsShort rooms.new }
    ensures reserved { (count : _) → count + spare ≤ limit → AreReserved rooms.old count → AreReserved rooms.new count }
    ensures known { V.told → AreRooms rooms.old (V.disk vol.old) → OnOk result (AreRooms rooms.new (V.disk vol.new)) }
    ensures keeps { V.told → OnOk result (KeepsBases (V.disk vol.old) (V.disk vol.new)) }
    ensures closed { V.told → OnOk result (KeepsClosed (V.disk vol.old) (V.disk vol.new)) }
    ensures durable { V.told → OnOk result (IsDurable (V.disk vol.new) file) }
    ensures any_moment { V.told → LeavesBases (V.disk vol.old) (V.disk vol.new) }
    ensures elsewhere { V.told → (other : _) → other ≢ file → Rests other (V.disk vol.old) (V.disk vol.new) }
    ensures cause { HasCause (V.faults vol.old) (V.faults vol.new) (IsErr result) }
    ensures refusals { V.refusals vol.old ≤ V.refusals vol.new }
    ensures later { (V.disk vol.old).moment ≤ (V.disk vol.new).moment }
{
    if rooms.of(file) <= limit {
        return Ok(());
    }
    GateLog::trim(vol, file, limit)?;
    rooms.set(file, limit);
    Ok(())
}

/// Cuts each log that is known to be longer than so many bytes to them. They reach behind the gates after their batches.
pub(crate) fn trim_logs<V: Vol>(vol: &mut V, rooms: &mut Rooms, limit: u64) -> Result<(), Failed>
    requires ends { V.told → EndsBefore limit ((V.disk vol.old).seen 0) × EndsBefore limit ((V.disk vol.old).seen 1) }
    requires durable { V.told → IsDurable (V.disk vol.old) 0 × IsDurable (V.disk vol.old) 1 }
    ensures reach { rooms.new.reach ≡ rooms.old.reach }
    ensures logs { AreLogsShort rooms.old → AreLogsShort rooms.new }
    ensures reserved { (count : _) → count + spare ≤ limit → AreReserved rooms.old count → AreReserved rooms.new count }
    ensures known { V.told → AreRooms rooms.old (V.disk vol.old) → OnOk result (AreRooms rooms.new (V.disk vol.new)) }
    ensures keeps { V.told → OnOk result (KeepsBases (V.disk vol.old) (V.disk vol.new)) }
    ensures closed { V.told → OnOk result (KeepsClosed (V.disk vol.old) (V.disk vol.new)) }
    ensures any_moment { V.told → LeavesBases (V.disk vol.old) (V.disk vol.new) }
    ensures elsewhere { V.told → (file : _) → 2 ≤ file → Rests file (V.disk vol.old) (V.disk vol.new) }
    ensures cause { HasCause (V.faults vol.old) (V.faults vol.new) (IsErr result) }
    ensures refusals { V.refusals vol.old ≤ V.refusals vol.new }
    ensures later { (V.disk vol.old).moment ≤ (V.disk vol.new).moment }
{
    trim_log(vol, rooms, 0, limit)?;
    trim_log(vol, rooms, 1, limit)?;
    Ok(())
}

/// How long the file of a block is made, in which a message ends there.
fn block_len<V: Vol>(vol: &V, end: u64) -> u64
    ensures reaches { end ≤ result }
{
    whole_chunks(vol, end).min(MAX_BLOCK).max(end)
}

/// How long a file for messages is, once it was made longer up to the end of a spot, if there is room. Length that is behind 2^32 does not count.
pub(crate) fn reach_spot<V: Vol>(vol: &mut V, spot: Spot) -> Result<Block, Failed>
    requires spot { IsMessageSpot spot }
    ensures file { IfOk result (λ block. block.file ≡ spot.file) }
    ensures known { V.told → IfOk result (λ block. block.end ≤ length ((V.disk vol.new).seen block.file)) }
    ensures keeps { V.told → OnOk result (KeepsBases (V.disk vol.old) (V.disk vol.new)) }
    ensures longer { V.told → OnOk result (AreLonger (V.disk vol.old) (V.disk vol.new)) }
    ensures any_moment { V.told → LeavesBases (V.disk vol.old) (V.disk vol.new) }
    ensures refused { HasCause (V.refusals vol.old) (V.refusals vol.new) (IsOkAnd result (λ block. block.end < spot.at + spot.len)) }
    ensures cause { HasCause (V.faults vol.old) (V.faults vol.new) (IsErr result) }
    ensures later { (V.disk vol.old).moment ≤ (V.disk vol.new).moment }
{
    let end = u64::from(spot.at) + u64::from(spot.len);
    let len = file_len(vol, spot.file)?;
    if end <= len {
        return Ok(block_of(spot.file, len));
    }
    let longer = block_len(vol, end);
    let room = make_room(vol, spot.file, len, longer)?;
    if room == Room::Made {
        return Ok(block_of(spot.file, longer));
    }
    let reached = file_len(vol, spot.file)?;
    Ok(block_of(spot.file, reached))
}

/// A file for messages of this length, up to 2^32 - 1.
fn block_of(file: u32, len: u64) -> Block
    ensures file { result.file ≡ file }
    ensures end { result.end ≡ min len (2 ^ 32 - 1) }
{
    Block {
        file,
        end: len.min(u64::from(u32::MAX)) as u32,
    }
}
