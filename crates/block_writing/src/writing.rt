//! Writing the messages of a commit.

ghost use Rattle.std.specs.Prelude.{◌≡◌, ◌≤◌, All, length, OnOk, IsErr};
ghost use Rattle.js_base.specs.Causes.{HasCause};
ghost use Rattle.vol_disk.specs.Images.{AreBytes};
ghost use Rattle.block_writing.specs.Runs.{AreApart, IsShort};
ghost use Rattle.block_writing.specs.Writing.{AreAsLong, AreWithin, ChangesRuns, IsWritten};

use crate::run::Run;
use vol_disk::{Failed, Vol};

/// Each byte of a slice is below 256. The type says so, and clauses that speak of numbers need it said.
fn law_bytes(bytes: &[u8])
    ensures { AreBytes bytes.now }
{}

/// Writes each run into its file and syncs it. Each ends within its file, and no two are in one.
///
/// At `Ok` a crash leaves each run behind what its file read as in front of it. `Failed` comes only if the volume's count of faults rose. What stood in front
/// of the runs stands at each moment of the call.
pub fn write_runs<V: Vol>(vol: &mut V, runs: &[Run]) -> Result<(), Failed>
    requires within { V.told → AreWithin (V.disk vol.old) runs.now }
    requires short { All IsShort runs.now }
    requires apart { AreApart runs.now }
    ensures written { V.told → OnOk result (All (IsWritten (V.disk vol.old) (V.disk vol.new)) runs.now) }
    ensures as_long { V.told → OnOk result (AreAsLong (V.disk vol.old) (V.disk vol.new)) }
    ensures bytes { OnOk result (All (λ run. AreBytes run.bytes) runs.now) }
    ensures changes { V.told → ChangesRuns runs.now (V.disk vol.old) (V.disk vol.new) }
    ensures cause { HasCause (V.faults vol.old) (V.faults vol.new) (IsErr result) }
    ensures refusals { V.refusals vol.old ≤ V.refusals vol.new }
    ensures later { (V.disk vol.old).moment ≤ (V.disk vol.new).moment }
{
    for run in runs {
        let bytes = run.bytes.as_slice();
        law_bytes(bytes);
        message_block::write(vol, run.file, run.at, bytes)?;
    }
    Ok(())
}
