//! Reading a log file from gate to gate.

ghost use Rattle.std.specs.Prelude.{◌≡◌, ◌+◌, ◌<◌, ◌≤◌, ◌++◌, ◌∷◌, OnOk, IfOk, IfErr, MatchOption, IsErr, IsErrOf, length, take, drop};
ghost use Rattle.std.specs.Int.{w32, to_be_bytes};
ghost use Rattle.vol_disk.specs.Images.{IsDurable};
ghost use Rattle.vol_disk.specs.Moments.{Quiet};
ghost use Rattle.js_base.specs.Causes.{HasCause};
ghost use Rattle.gate_log.specs.Walking.{IsNextGate, IsGateFault, AreEnds, IsWalkFault};

use crate::ends::Ends;
use crate::fault::LogFault;
use crate::sums::checksum_at;
use vol_disk::{Failed, Vol};

/// A gate with this byte is open, and with any other one closed.
pub const OPEN: u8 = 1;

/// The bytes of a batch that are no records, and the gate behind it: its own gate, the length, the checksum, and the next gate.
const AROUND_BATCH: u64 = 10;

/// Reads a range of the file.
pub fn read<V: Vol>(vol: &mut V, file: u32, at: u64, into: &mut [u8]) -> Result<(), Failed>
    requires within { V.told → at + length into.old ≤ length ((V.disk vol.old).seen file) }
    ensures value { V.told → OnOk result (into.new ≡ take (length into.old) (drop at ((V.disk vol.old).seen file))) }
    ensures quiet { V.told → Quiet (V.disk vol.old) (V.disk vol.new) }
    ensures cause { HasCause (V.faults vol.old) (V.faults vol.new) (IsErr result) }
    ensures refusals { V.refusals vol.old ≤ V.refusals vol.new }
    ensures later { (V.disk vol.old).moment ≤ (V.disk vol.new).moment }
{
    vol.read_at(file, at, into)
}

/// The byte at an offset.
pub fn byte_at<V: Vol>(vol: &mut V, file: u32, at: u64) -> Result<u8, Failed>
    requires within { V.told → at < length ((V.disk vol.old).seen file) }
    ensures value { V.told → IfOk result (λ byte. drop at ((V.disk vol.old).seen file) ≡ byte ∷ drop (at + 1) ((V.disk vol.old).seen file)) }
    ensures quiet { V.told → Quiet (V.disk vol.old) (V.disk vol.new) }
    ensures cause { HasCause (V.faults vol.old) (V.faults vol.new) (IsErr result) }
    ensures refusals { V.refusals vol.old ≤ V.refusals vol.new }
    ensures later { (V.disk vol.old).moment ≤ (V.disk vol.new).moment }
{
    let mut byte = [0];
    read(vol, file, at, &mut byte)?;
    Ok(byte[0])
}

/// The number of a batch's length or checksum.
fn number_of(bytes: [u8; 4]) -> u32
    ensures { to_be_bytes w32 result ≡ bytes }
{
    u32::from_be_bytes(bytes)
}

/// The number of four bytes at an offset.
pub fn number_at<V: Vol>(vol: &mut V, file: u32, at: u64) -> Result<u32, Failed>
    requires within { V.told → at + 4 ≤ length ((V.disk vol.old).seen file) }
    ensures value { V.told → IfOk result (λ n. drop at ((V.disk vol.old).seen file) ≡ to_be_bytes w32 n ++ drop (at + 4) ((V.disk vol.old).seen file)) }
    ensures quiet { V.told → Quiet (V.disk vol.old) (V.disk vol.new) }
    ensures cause { HasCause (V.faults vol.old) (V.faults vol.new) (IsErr result) }
    ensures refusals { V.refusals vol.old ≤ V.refusals vol.new }
    ensures later { (V.disk vol.old).moment ≤ (V.disk vol.new).moment }
{
    let mut bytes = [0; 4];
    read(vol, file, at, &mut bytes)?;
    Ok(number_of(bytes))
}

/// Syncs the file, and tells how long it is.
pub fn synced_len<V: Vol>(vol: &mut V, file: u32) -> Result<u64, Failed>
    ensures value { V.told → IfOk result (λ len. len ≡ length ((V.disk vol.old).seen file)) }
    ensures durable { V.told → OnOk result (IsDurable (V.disk vol.new) file) }
    ensures quiet { V.told → Quiet (V.disk vol.old) (V.disk vol.new) }
    ensures cause { HasCause (V.faults vol.old) (V.faults vol.new) (IsErr result) }
    ensures refusals { V.refusals vol.old ≤ V.refusals vol.new }
    ensures later { (V.disk vol.old).moment ≤ (V.disk vol.new).moment }
{
    vol.sync(file)?;
    vol.len(file)
}

/// The gate after the batch that is open at a gate, or `None` if that is closed.
fn next_gate<V: Vol>(vol: &mut V, file: u32, len: u64, at: u64) -> Result<Option<u64>, LogFault>
    requires len { V.told → len ≡ length ((V.disk vol.old).seen file) }
    requires within { at < len }
    ensures within { IfOk result (λ next. MatchOption next (Unit {0}) (λ n. (at < n) × (n < len))) }
    ensures next { V.told → IfOk result (IsNextGate ((V.disk vol.old).seen file) at) }
    ensures fault { V.told → IfErr result (IsGateFault ((V.disk vol.old).seen file) at) }
    ensures quiet { V.told → Quiet (V.disk vol.old) (V.disk vol.new) }
    ensures cause { HasCause (V.faults vol.old) (V.faults vol.new) (IsErrOf result LogFault.Fault) }
    ensures refusals { V.refusals vol.old ≤ V.refusals vol.new }
    ensures later { (V.disk vol.old).moment ≤ (V.disk vol.new).moment }
{
    if byte_at(vol, file, at)? != OPEN {
        return Ok(None);
    }
    if len - at < AROUND_BATCH {
        return Err(LogFault::Damaged(at));
    }
    let count = number_at(vol, file, at + 1)? as u64;
    if len - at - AROUND_BATCH < count {
        return Err(LogFault::Damaged(at));
    }
    let told = number_at(vol, file, at + 5)?;
    if checksum_at(vol, file, at + 9, count)? != told {
        return Err(LogFault::Damaged(at));
    }
    Ok(Some(at + 9 + count))
}

/// The gates after the first open batch and after the last one of a file that is this long.
pub fn walk<V: Vol>(vol: &mut V, file: u32, len: u64) -> Result<Ends, LogFault>
    requires len { V.told → len ≡ length ((V.disk vol.old).seen file) }
    requires long { 20 < len }
    ensures ends { V.told → IfOk result (λ ends. AreEnds ((V.disk vol.old).seen file) ends.first ends.last) }
    ensures fault { V.told → IfErr result (IsWalkFault ((V.disk vol.old).seen file)) }
    ensures quiet { V.told → Quiet (V.disk vol.old) (V.disk vol.new) }
    ensures cause { HasCause (V.faults vol.old) (V.faults vol.new) (IsErrOf result LogFault.Fault) }
    ensures refusals { V.refusals vol.old ≤ V.refusals vol.new }
    ensures later { (V.disk vol.old).moment ≤ (V.disk vol.new).moment }
{
    let mut ends = Ends::none();
    while let Some(next) = next_gate(vol, file, len, ends.last)? {
        ends = ends.before(next);
    }
    Ok(ends)
}
