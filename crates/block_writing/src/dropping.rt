//! Dropping blocks.

ghost use Rattle.std.specs.Prelude.{◌≡◌, ◌≤◌, IsErr, OnOk};
ghost use Rattle.js_base.specs.Causes.{HasCause};
ghost use Rattle.block_writing.specs.Dropping.{AreEmptied, ChangesUnused};

use block_table::{Block, BlockTable};
use vol_disk::{Failed, Vol};

/// Cuts those of the blocks to nothing that are none of the table any more, one after the other, and syncs them.
///
/// At `Ok` each of these reads as empty, and a crash leaves nothing of it. `Failed` comes only if the volume's count of faults rose; the next blocks are then left
/// as they were. No file but these is touched, at any moment of the call.
pub fn drop_unused<V: Vol>(vol: &mut V, table: &BlockTable, blocks: &[Block]) -> Result<(), Failed>
    ensures emptied { V.told → OnOk result (AreEmptied table.now blocks.now (V.disk vol.new)) }
    ensures changes { V.told → ChangesUnused table.now blocks.now (V.disk vol.old) (V.disk vol.new) }
    ensures cause { HasCause (V.faults vol.old) (V.faults vol.new) (IsErr result) }
    ensures refusals { V.refusals vol.old ≤ V.refusals vol.new }
    ensures later { (V.disk vol.old).moment ≤ (V.disk vol.new).moment }
{
    for block in blocks {
        if !table.has_block(block.file) {
            message_block::drop_block(vol, block.file)?;
        }
    }
    Ok(())
}
