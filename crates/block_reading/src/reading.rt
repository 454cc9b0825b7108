//! Reading the stored messages of a volume.

ghost use Rattle.std.specs.Prelude.{◌≡◌, ◌≤◌, ◌+◌, map, length, All, IfOk, IfErr, IsErrOf, IsTrue};
ghost use Rattle.std.specs.List.{AllZip, list_all};
ghost use Rattle.js_base.specs.Causes.{HasCause};
ghost use Rattle.js_model.specs.Streams.{seqs};
ghost use Rattle.op_records.specs.Blocks.{is_block_message};
ghost use Rattle.vol_disk.specs.Moments.{Quiet};
ghost use Rattle.block_table.specs.Blocks.{blocks};
ghost use Rattle.block_table.specs.Tables.{IsTable};
ghost use Rattle.block_reading.specs.Standing.{AreStoredIn, IsThere, IsWhole};
ghost use Rattle.block_reading.specs.Damage.{IsToldBy};
ghost use Rattle.block_reading.specs.Reading.{AreLostFault, IsFound, IsLostFault, IsMessagesFault};

use crate::bytes::{BytesFault, stored_message};
use crate::fault::MessagesFault;
use crate::loading::check_blocks;
use block_table::BlockTable;
use js_base::{List, Spot};
use js_model::Message;
use std::alloc::Global;
use vol_disk::Vol;

/// The stored message at a spot, which lies inside its file. It has the sequence and the moment that the log tells.
fn read_one<V: Vol>(
    alloc: Global,
    vol: &mut V,
    spot: Spot,
    told: &Message,
) -> Result<Message, MessagesFault>
    requires within { V.told → spot.at + spot.len ≤ length ((V.disk vol.old).seen spot.file) }
    ensures found { V.told → IfOk result (IsFound (V.disk vol.old).seen spot told.now) }
    // Of any volume:
    ensures told { IfOk result (IsToldBy told.now) }
    ensures allowed { IfOk result (λ m. IsTrue (is_block_message m)) }
    ensures fault { V.told → IfErr result (IsLostFault (V.disk vol.old).seen spot told.now) }
    ensures quiet { V.told → Quiet (V.disk vol.old) (V.disk vol.new) }
    ensures cause { HasCause (V.faults vol.old) (V.faults vol.new) (IsErrOf result MessagesFault.Fault) }
    ensures refusals { V.refusals vol.old ≤ V.refusals vol.new }
    ensures later { (V.disk vol.old).moment ≤ (V.disk vol.new).moment }
{
    let bytes = message_block::read(alloc, vol, spot)?;
    match stored_message(alloc, bytes.as_slice(), told) {
        Ok(message) => Ok(message),
        Err(BytesFault::Wrong(_)) => Err(MessagesFault::Damaged {
            file: spot.file,
            at: spot.at,
        }),
        Err(BytesFault::NoMemory) => Err(MessagesFault::NoMemory),
    }
}

/// The stored messages at their spots, whose blocks are whole.
fn read_all<V: Vol>(
    alloc: Global,
    vol: &mut V,
    table: &BlockTable,
    last: u64,
    told: &[Message],
) -> Result<List<Message>, MessagesFault>
    requires placed { map (λ p. p.seq) table.now.placed ≡ seqs told.now }
    requires table { IsTable table.now }
    requires whole { V.told → All (IsWhole (V.disk vol.old).seen last) (blocks table.now) }
    ensures found { V.told → IfOk result (λ ms. AllZip (IsThere (V.disk vol.old).seen) table.now.placed ms) }
    // Of any volume:
    ensures told { IfOk result (λ ms. AllZip IsToldBy told.now ms) }
    ensures allowed { IfOk result (λ ms. IsTrue (list_all is_block_message ms)) }
    ensures fault { V.told → IfErr result (AreLostFault (V.disk vol.old).seen table.now.placed told.now) }
    ensures quiet { V.told → Quiet (V.disk vol.old) (V.disk vol.new) }
    ensures cause { HasCause (V.faults vol.old) (V.faults vol.new) (IsErrOf result MessagesFault.Fault) }
    ensures refusals { V.refusals vol.old ≤ V.refusals vol.new }
    ensures later { (V.disk vol.old).moment ≤ (V.disk vol.new).moment }
{
    let mut messages = List::new(alloc);
    for one in told {
        let Some(spot) = table.spot(one.seq) else {
            unreachable!()
        };
        let message = read_one(alloc, vol, spot, one)?;
        messages.push(message)?;
    }
    Ok(messages)
}

/// The stored messages of a stream, in order of their sequences, out of the blocks of its table. Its last sequence is told, and of each message the
/// sequence and the moment; its subject, headers and payload are not looked at.
///
/// `Damaged` tells the first block that is not whole, and the offset of the first of its messages that is wrong; or else the spot of the first stored message
/// that is not there. It comes exactly if the blocks are damaged.
pub fn read_messages<V: Vol>(
    alloc: Global,
    vol: &mut V,
    table: &BlockTable,
    last: u64,
    told: &[Message],
) -> Result<List<Message>, MessagesFault>
    requires placed { map (λ p. p.seq) table.now.placed ≡ seqs told.now }
    ensures stored { V.told → IfOk result (AreStoredIn (V.disk vol.old).seen table.now last) }
    // Of any volume:
    ensures told { IfOk result (λ ms. AllZip IsToldBy told.now ms) }
    ensures allowed { IfOk result (λ ms. IsTrue (list_all is_block_message ms)) }
    ensures fault { V.told → IfErr result (IsMessagesFault (V.disk vol.old).seen table.now last told.now) }
    ensures quiet { V.told → Quiet (V.disk vol.old) (V.disk vol.new) }
    ensures cause { HasCause (V.faults vol.old) (V.faults vol.new) (IsErrOf result MessagesFault.Fault) }
    ensures refusals { V.refusals vol.old ≤ V.refusals vol.new }
    ensures later { (V.disk vol.old).moment ≤ (V.disk vol.new).moment }
{
    check_blocks(alloc, vol, table, last)?;
    read_all(alloc, vol, table, last, told)
}
