//! Shutting a log, and starting one in its file.

ghost use Rattle.std.specs.Prelude.{◌≡◌, ◌<◌, ◌≤◌, ◌^◌, [], List, None, Option, Some, IfOk, IsErr, OnOk, length};
ghost use Rattle.vol_disk.specs.Images.{IsDurable};
ghost use Rattle.vol_disk.specs.Moments.{Quiet};
ghost use Rattle.js_base.specs.Bytes.{Bytes};
ghost use Rattle.js_base.specs.Causes.{HasCause};
ghost use Rattle.gate_log.specs.Growing.{StaysAsLong};
ghost use Rattle.gate_log.specs.LogFile.{HasOpen};
ghost use Rattle.gate_log.specs.LogState.{new_log};
ghost use Rattle.gate_log.specs.Settled.{IsSettled};
ghost use Rattle.gate_log.specs.Starting.{IsClosed, IsEmptied, Starts};

use crate::ends::FIRST_GATE;
use crate::gates::{OPEN, byte_at};
use crate::head::empty_log;
use crate::log::GateLog;
use vol_disk::{Failed, Vol, write_synced};

/// Closes the first gate if it is open.
fn close_gate<V: Vol>(vol: &mut V, file: u32) -> Result<(), Failed>
    requires long { V.told → 21 < length ((V.disk vol.old).seen file) }
    requires durable { V.told → IsDurable (V.disk vol.old) file }
    ensures closed { V.told → OnOk result (IsClosed ((V.disk vol.old).seen file) ((V.disk vol.new).seen file)) }
    ensures durable { V.told → OnOk result (IsDurable (V.disk vol.new) file) }
    ensures any_moment { V.told → Starts file (V.disk vol.old) (V.disk vol.new) }
    ensures lengths { V.told → StaysAsLong file (V.disk vol.old) (V.disk vol.new) }
    ensures quiet { V.told → HasOpen ((V.disk vol.old).seen file) None [] → Quiet (V.disk vol.old) (V.disk vol.new) }
    ensures cause { HasCause (V.faults vol.old) (V.faults vol.new) (IsErr result) }
    ensures refusals { V.refusals vol.old ≤ V.refusals vol.new }
    ensures later { (V.disk vol.old).moment ≤ (V.disk vol.new).moment }
{
    if byte_at(vol, file, FIRST_GATE)? == OPEN {
        write_synced(vol, file, FIRST_GATE, &[0])
    } else {
        Ok(())
    }
}

impl GateLog {
    /// Shuts the log of a durable file: at `Ok` no batch of it is open, and a crash leaves just that. The file stays as long as it was. The first gate is closed
    /// and the file synced, and nothing is written if no batch was open. A crash during the call, or after `Failed`, leaves the file as it was or without an open
    /// batch. `Failed` comes if the volume fails. Other files are not touched.
    pub fn shut<V: Vol>(vol: &mut V, file: u32) -> Result<(), Failed>
        requires durable { V.told → IsDurable (V.disk vol.old) file }
        ensures shut { V.told → OnOk result (IsEmptied ((V.disk vol.old).seen file) ((V.disk vol.new).seen file)) }
        ensures durable { V.told → OnOk result (IsDurable (V.disk vol.new) file) }
        ensures any_moment { V.told → Starts file (V.disk vol.old) (V.disk vol.new) }
        ensures as_long { V.told → OnOk result (length ((V.disk vol.new).seen file) ≡ length ((V.disk vol.old).seen file)) }
        ensures lengths { V.told → StaysAsLong file (V.disk vol.old) (V.disk vol.new) }
        ensures quiet { V.told → HasOpen ((V.disk vol.old).seen file) None [] → Quiet (V.disk vol.old) (V.disk vol.new) }
        ensures cause { HasCause (V.faults vol.old) (V.faults vol.new) (IsErr result) }
        ensures refusals { V.refusals vol.old ≤ V.refusals vol.new }
        ensures later { (V.disk vol.old).moment ≤ (V.disk vol.new).moment }
    {
        if vol.len(file)? > FIRST_GATE + 1 {
            close_gate(vol, file)
        } else {
            Ok(())
        }
    }

    /// Starts a log without batches in a durable log file of more than 21 bytes, to which batches may be appended. What the file held is gone, and a crash leaves
    /// it or nothing; the file stays as long as it was. It closes the first gate, and then writes the generation and the checksum of the head, with a sync behind
    /// each: so the generation never stands over an open batch from before. It takes no memory.
    pub fn start<V: Vol>(vol: &mut V, file: u32, generation: u64) -> Result<GateLog, Failed>
        requires long { V.told → 21 < length ((V.disk vol.old).seen file) }
        requires whole { V.told → (before : Option _) × (batches : List Bytes) × HasOpen ((V.disk vol.old).seen file) before batches }
        requires durable { V.told → IsDurable (V.disk vol.old) file }
        requires below { generation < 2 ^ 62 }
        ensures log { IfOk result (λ log. log ≡ new_log file (Some generation)) }
        ensures settled { V.told → IfOk result (λ log. IsSettled log [] (V.disk vol.new)) }
        ensures any_moment { V.told → Starts file (V.disk vol.old) (V.disk vol.new) }
        ensures as_long { V.told → OnOk result (length ((V.disk vol.new).seen file) ≡ length ((V.disk vol.old).seen file)) }
        ensures lengths { V.told → StaysAsLong file (V.disk vol.old) (V.disk vol.new) }
        ensures cause { HasCause (V.faults vol.old) (V.faults vol.new) (IsErr result) }
        ensures refusals { V.refusals vol.old ≤ V.refusals vol.new }
        ensures later { (V.disk vol.old).moment ≤ (V.disk vol.new).moment }
    {
        close_gate(vol, file)?;
        write_synced(vol, file, 8, &empty_log(generation)[8..20])?;
        Ok(GateLog::without_batches(file, Some(generation)))
    }
}
