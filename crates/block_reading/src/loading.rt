//! Reading blocks from a volume.

ghost use Rattle.std.specs.Prelude.{◌≡◌, ◌≤◌, length, take, IfOk, IfErr, IsErrOf, OnOk, All};
ghost use Rattle.js_base.specs.Causes.{HasCause};
ghost use Rattle.vol_disk.specs.Moments.{Quiet};
ghost use Rattle.block_table.specs.Blocks.{blocks};
ghost use Rattle.block_table.specs.Tables.{IsTable};
ghost use Rattle.block_reading.specs.Standing.{IsWhole};
ghost use Rattle.block_reading.specs.Reading.{IsBlockFault, IsCheckFault, IsOutside};

use crate::bytes::{BytesFault, check_bytes};
use crate::fault::MessagesFault;
use block_table::{Block, BlockTable};
use js_base::{Blob, Spot};
use std::alloc::Global;
use vol_disk::Vol;

/// The bytes of a file up to an end, or up to its own. They are read at once.
pub(crate) fn load<V: Vol>(
    alloc: Global,
    vol: &mut V,
    file: u32,
    end: u32,
) -> Result<Blob, MessagesFault>
    ensures value { V.told → IfOk result (λ bytes. bytes ≡ take end ((V.disk vol.old).seen file)) }
    // Of any volume:
    ensures short { IfOk result (λ bytes. length bytes ≤ end) }
    ensures only { IfErr result IsOutside }
    ensures quiet { V.told → Quiet (V.disk vol.old) (V.disk vol.new) }
    ensures cause { HasCause (V.faults vol.old) (V.faults vol.new) (IsErrOf result MessagesFault.Fault) }
    ensures refusals { V.refusals vol.old ≤ V.refusals vol.new }
    ensures later { (V.disk vol.old).moment ≤ (V.disk vol.new).moment }
{
    let len = vol.len(file)?;
    let spot = Spot {
        file,
        at: 0,
        len: len.min(end as u64) as u32,
    };
    let bytes = message_block::read(alloc, vol, spot)?;
    Ok(bytes)
}

/// Whether a block is whole.
fn check_block<V: Vol>(
    alloc: Global,
    vol: &mut V,
    block: Block,
    last: u64,
) -> Result<(), MessagesFault>
    ensures whole { V.told → OnOk result (IsWhole (V.disk vol.old).seen last block) }
    ensures fault { V.told → IfErr result (IsBlockFault (V.disk vol.old).seen last block) }
    ensures quiet { V.told → Quiet (V.disk vol.old) (V.disk vol.new) }
    ensures cause { HasCause (V.faults vol.old) (V.faults vol.new) (IsErrOf result MessagesFault.Fault) }
    ensures refusals { V.refusals vol.old ≤ V.refusals vol.new }
    ensures later { (V.disk vol.old).moment ≤ (V.disk vol.new).moment }
{
    let bytes = load(alloc, vol, block.file, block.end)?;
    match check_bytes(alloc, bytes.as_slice(), block.end, last) {
        Ok(()) => Ok(()),
        Err(BytesFault::Wrong(at)) => Err(MessagesFault::Damaged {
            file: block.file,
            at,
        }),
        Err(BytesFault::NoMemory) => Err(MessagesFault::NoMemory),
    }
}

/// Whether each block is whole, in their order.
pub(crate) fn check_blocks<V: Vol>(
    alloc: Global,
    vol: &mut V,
    table: &BlockTable,
    last: u64,
) -> Result<(), MessagesFault>
    ensures whole { V.told → OnOk result (All (IsWhole (V.disk vol.old).seen last) (blocks table.now)) }
    ensures fault { V.told → IfErr result (IsCheckFault (V.disk vol.old).seen last (blocks table.now)) }
    ensures table { IsTable table.now }
    ensures quiet { V.told → Quiet (V.disk vol.old) (V.disk vol.new) }
    ensures cause { HasCause (V.faults vol.old) (V.faults vol.new) (IsErrOf result MessagesFault.Fault) }
    ensures refusals { V.refusals vol.old ≤ V.refusals vol.new }
    ensures later { (V.disk vol.old).moment ≤ (V.disk vol.new).moment }
{
    for block in table.older() {
        check_block(alloc, vol, *block, last)?;
    }
    match table.writing() {
        Some(block) => check_block(alloc, vol, block, last),
        None => Ok(()),
    }
}
