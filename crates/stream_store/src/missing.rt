//! Whether a stream is missing on a volume without an open batch.

ghost use Rattle.std.specs.Prelude.{◌≡◌, ◌≤◌, IfErr, IsErrOf, OnOk};
ghost use Rattle.js_base.specs.Causes.{HasCause};
ghost use Rattle.vol_disk.specs.Images.{IsDurable};
ghost use Rattle.vol_disk.specs.Moments.{Quiet};
ghost use Rattle.stream_store.specs.Finding.{IsFaultWhere};
ghost use Rattle.stream_store.specs.Untouched.{AreBlocksGone, HasMore, IsTouchedAt, IsUntouched, IsWithin, allowed as allowed_in, told_at as told_in};

use crate::clearing::{FILES, FIRST_FILE};
use crate::fault::OpenFault;
use crate::logs::BEGUN_LENGTH;
use vol_disk::Vol;

/// The offset of the first gate of a log.
const FIRST_GATE: u64 = 20;

/// How many bytes a first start leaves of a file at most, if it is cut short.
fn allowed(file: u32) -> u64
    ensures value { result ≡ allowed_in file }
{
    if file == 0 { BEGUN_LENGTH } else { 0 }
}

/// Where a file of so many bytes is told that has more: a log at its first gate, which is closed, and a block at 0.
fn told_at(file: u32, len: u64) -> u64
    ensures value { result ≡ told_in file len }
{
    if file < FIRST_FILE && len > FIRST_GATE {
        FIRST_GATE
    } else {
        0
    }
}

/// Looks whether a file has no more than a first start may leave, and syncs it then, so that a crash leaves just that.
fn check_file<V: Vol>(vol: &mut V, file: u32) -> Result<(), OpenFault>
    ensures within { V.told → OnOk result (IsWithin (V.disk vol.old).seen file) }
    ensures durable { V.told → OnOk result (IsDurable (V.disk vol.new) file) }
    ensures fault { V.told → IfErr result (IsFaultWhere (λ other at. (other ≡ file) × HasMore (V.disk vol.old).seen file at)) }
    ensures quiet { V.told → Quiet (V.disk vol.old) (V.disk vol.new) }
    ensures no_room { ¬ IsErrOf result OpenFault.NoRoom }
    ensures cause { HasCause (V.faults vol.old) (V.faults vol.new) (IsErrOf result OpenFault.Fault) }
    ensures refusals { V.refusals vol.old ≤ V.refusals vol.new }
    ensures later { (V.disk vol.old).moment ≤ (V.disk vol.new).moment }
{
    let len = vol.len(file)?;
    if len > allowed(file) {
        return Err(OpenFault::Damaged {
            file,
            at: told_at(file, len),
        });
    }
    vol.sync(file)?;
    Ok(())
}

/// Looks whether a volume without an open batch has no more than the first start of a place may leave, if it is cut short: at each file that could be a log or a
/// block, one after the other up to the last with bytes. Nothing is written. The first file with more is damaged.
pub(crate) fn check_untouched<V: Vol>(vol: &mut V) -> Result<(), OpenFault>
    ensures untouched { V.told → OnOk result (IsUntouched (V.disk vol.old).seen) }
    ensures gone { V.told → OnOk result (AreBlocksGone (V.disk vol.new)) }
    ensures fault { V.told → IfErr result (IsFaultWhere (IsTouchedAt (V.disk vol.old).seen)) }
    ensures quiet { V.told → Quiet (V.disk vol.old) (V.disk vol.new) }
    ensures no_room { ¬ IsErrOf result OpenFault.NoRoom }
    ensures cause { HasCause (V.faults vol.old) (V.faults vol.new) (IsErrOf result OpenFault.Fault) }
    ensures refusals { V.refusals vol.old ≤ V.refusals vol.new }
    ensures later { (V.disk vol.old).moment ≤ (V.disk vol.new).moment }
{
    let end = vol.files_end()?.min(FILES) as u32;
    for file in 0..end {
        check_file(vol, file)?;
    }
    Ok(())
}
