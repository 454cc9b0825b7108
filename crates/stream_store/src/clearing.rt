//! Shutting the log that is not current, and clearing files that are no blocks.

ghost use Rattle.std.specs.Prelude.{◌≡◌, ◌≢◌, ◌≤◌, [], false, None, IsErr, OnOk};
ghost use Rattle.js_base.specs.Causes.{HasCause};
ghost use Rattle.vol_disk.specs.Does.{Rests};
ghost use Rattle.vol_disk.specs.Images.{IsDurable};
ghost use Rattle.vol_disk.specs.Moments.{Quiet};
ghost use Rattle.block_table.specs.Blocks.{Blocks, has_block};
ghost use Rattle.effects.specs.declared.durable.Durable.{Durable};
ghost use Rattle.block_writing.specs.Writing.{AreAsLong};
ghost use Rattle.gate_log.specs.LogFile.{HasOpen};
ghost use Rattle.gate_log.specs.Starting.{Starts};
ghost use Rattle.stream_store.specs.Alternating.{other_file as other_in};
ghost use Rattle.stream_store.specs.Base.{IsBaseOf};
ghost use Rattle.stream_store.specs.Clearing.{AreCleared, IsCleared, IsOtherClosed, IsUsed, Spares};

use block_table::BlockTable;
use gate_log::GateLog;
use message_block::drop_block;
use vol_disk::{Failed, Vol};

/// The lowest file that can be a block. Those below it are logs.
pub(crate) const FIRST_FILE: u32 = 2;

/// The number of files that can be logs or blocks.
pub(crate) const FILES: u64 = 65_536;

/// The file of the other log.
pub(crate) fn other_file(file: u32) -> u32
    ensures value { result ≡ other_in file }
{
    if file == 0 { 1 } else { 0 }
}

/// Shuts the log that is not the current one, if a batch is open in it. It stays as long as it was. A crash at any moment leaves it as it was or without an open
/// batch, and no other file is touched.
pub(crate) fn close_other<V: Vol>(vol: &mut V, log: &GateLog) -> Result<(), Failed>
    requires base { V.told → (b : Blocks) × (base : Durable) × IsBaseOf log.now b base (V.disk vol.old) }
    ensures closed { V.told → OnOk result (IsOtherClosed log.now (V.disk vol.new)) }
    ensures durable { V.told → OnOk result (IsDurable (V.disk vol.new) (other_in log.now.file)) }
    ensures any_moment { V.told → Starts (other_in log.now.file) (V.disk vol.old) (V.disk vol.new) }
    ensures as_long { V.told → OnOk result (AreAsLong (V.disk vol.old) (V.disk vol.new)) }
    ensures quiet { V.told → HasOpen ((V.disk vol.old).seen (other_in log.now.file)) None [] → Quiet (V.disk vol.old) (V.disk vol.new) }
    ensures cause { HasCause (V.faults vol.old) (V.faults vol.new) (IsErr result) }
    ensures refusals { V.refusals vol.old ≤ V.refusals vol.new }
    ensures later { (V.disk vol.old).moment ≤ (V.disk vol.new).moment }
{
    GateLog::shut(vol, other_file(log.file()))
}

/// Cuts a file that is no log to nothing, if it is no block and has bytes, and syncs it.
fn clear_file<V: Vol>(vol: &mut V, table: &BlockTable, file: u32) -> Result<(), Failed>
    requires behind { 2 ≤ file }
    ensures cleared { V.told → has_block table.now file ≡ false → OnOk result (IsCleared (V.disk vol.old) (V.disk vol.new) file) }
    ensures spares { V.told → Spares (IsUsed table.now) (V.disk vol.old) (V.disk vol.new) }
    ensures elsewhere { V.told → (other : _) → other ≢ file → Rests other (V.disk vol.old) (V.disk vol.new) }
    ensures cause { HasCause (V.faults vol.old) (V.faults vol.new) (IsErr result) }
    ensures refusals { V.refusals vol.old ≤ V.refusals vol.new }
    ensures later { (V.disk vol.old).moment ≤ (V.disk vol.new).moment }
{
    if table.has_block(file) {
        return Ok(());
    }
    if vol.len(file)? == 0 {
        return Ok(());
    }
    drop_block(vol, file)
}

/// Cuts each file to nothing that could be a block, is none and has bytes, one after the other, and syncs it. It asks for the length of each file that could be
/// one, up to the last with bytes.
pub(crate) fn clear_files<V: Vol>(vol: &mut V, table: &BlockTable) -> Result<(), Failed>
    ensures cleared { V.told → OnOk result (AreCleared table.now (V.disk vol.old) (V.disk vol.new)) }
    ensures spares { V.told → Spares (IsUsed table.now) (V.disk vol.old) (V.disk vol.new) }
    ensures cause { HasCause (V.faults vol.old) (V.faults vol.new) (IsErr result) }
    ensures refusals { V.refusals vol.old ≤ V.refusals vol.new }
    ensures later { (V.disk vol.old).moment ≤ (V.disk vol.new).moment }
{
    let end = vol.files_end()?.min(FILES) as u32;
    for file in FIRST_FILE..end {
        clear_file(vol, table, file)?;
    }
    Ok(())
}
