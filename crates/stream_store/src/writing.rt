//! Writing what a commit staged.

ghost use Rattle.std.specs.Prelude.{◌≡◌, ◌≤◌, ◌≢◌, false, IsErr, OnOk, length};
ghost use Rattle.js_base.specs.Causes.{HasCause};
ghost use Rattle.vol_disk.specs.Does.{Rests};
ghost use Rattle.block_writing.specs.Writing.{AreAsLong};
ghost use Rattle.gate_log.specs.LogState.{with_batch};
ghost use Rattle.stream_store.specs.Staging.{is_written};
ghost use Rattle.stream_store.specs.Writing.{HasStagedRoom, IsReady, IsStagedInto, IsWritten, IsWrittenNext, LeavesStaged, LeavesStagedNext};

use crate::staging::Staged;
use block_writing::write_runs;
use gate_log::GateLog;
use vol_disk::{Failed, Vol};

/// Writes the messages into their blocks, and then the batch behind the log, be it the current one, or the next one, which is started. Nothing but a failure of
/// the volume ends it early.
pub(crate) fn write_staged<V: Vol>(
    vol: &mut V,
    log: &mut GateLog,
    staged: &Staged,
) -> Result<(), Failed>
    requires ready { IsReady log.old staged.now }
    requires room { V.told → HasStagedRoom log.old staged.now (V.disk vol.old) }
    requires staged { V.told → IsStagedInto log.old staged.now (V.disk vol.old) }
    ensures any_moment { V.told → LeavesStaged log.old staged.now (V.disk vol.old) (V.disk vol.new) }
    ensures next_any_moment { V.told → LeavesStagedNext log.old staged.now (V.disk vol.old) (V.disk vol.new) }
    ensures written { V.told → OnOk result (IsWritten log.old log.new staged.now (V.disk vol.old) (V.disk vol.new)) }
    ensures next_written { V.told → OnOk result (IsWrittenNext log.old log.new staged.now (V.disk vol.old) (V.disk vol.new)) }
    ensures elsewhere { V.told → (file : _) → file ≢ log.old.file → is_written staged.now.runs.items file ≡ false → Rests file (V.disk vol.old) (V.disk vol.new) }
    ensures as_long { V.told → OnOk result (AreAsLong (V.disk vol.old) (V.disk vol.new)) }
    ensures log { OnOk result (log.new ≡ with_batch log.old (length staged.now.batch)) }
    ensures head { log.new.head ≡ log.old.head }
    ensures cause { HasCause (V.faults vol.old) (V.faults vol.new) (IsErr result) }
    ensures refusals { V.refusals vol.old ≤ V.refusals vol.new }
    ensures later { (V.disk vol.old).moment ≤ (V.disk vol.new).moment }
{
    write_runs(vol, staged.runs.as_slice())?;
    log.append_batch(vol, &staged.batch)?;
    Ok(())
}
