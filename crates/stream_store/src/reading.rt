//! Reading what a volume holds.

ghost use Rattle.std.specs.Prelude.{◌≡◌, ◌≤◌, ◌+◌, IfErr, IfOk, IsErr, IsErrOf, List, OnOk, length, true};
ghost use Rattle.js_base.specs.Bytes.{Bytes};
ghost use Rattle.js_base.specs.Causes.{HasCause};
ghost use Rattle.vol_disk.specs.Images.{IsDurable};
ghost use Rattle.vol_disk.specs.Moments.{Quiet};
ghost use Rattle.gate_log.specs.Settled.{IsSettled};
ghost use Rattle.block_table.specs.Blocks.{blocks, is_among};
ghost use Rattle.block_table.specs.Tables.{IsTable};
ghost use Rattle.durable_checks.specs.Storable.{IsFormed, IsOpenable, IsStorable};
ghost use Rattle.log_records.specs.Holding.{given_in};
ghost use Rattle.log_records.specs.Logged.{IsLogged};
ghost use Rattle.log_records.specs.Unread.{stored_messages};
ghost use Rattle.stream_store.specs.Finding.{IsRecordsFault};
ghost use Rattle.stream_store.specs.Holding.{last_of as last_of_durable, logged};
ghost use Rattle.stream_store.specs.Reading.{AreSynced, IsBlocksFault, IsFound, IsReadOf, IsStoredBy, with_messages as with_messages_in};

use crate::fault::OpenFault;
use crate::logs::Current;
use block_reading::read_messages;
use block_table::{Block, BlockTable};
use durable_checks::is_openable;
use effects::Durable;
use js_base::List;
use js_model::Message;
use log_records::{LogRead, read_log};
use std::alloc::Global;
use vol_disk::{Failed, Vol};

/// What a volume holds, and where its messages lie.
#[derive(Drop)]
pub(crate) struct Found {
    pub(crate) durable: Durable,
    pub(crate) table: BlockTable,
}

/// Syncs the files of blocks.
fn sync_all<V: Vol>(vol: &mut V, blocks: &[Block]) -> Result<(), Failed>
    ensures synced { V.told → OnOk result ((file : _) → is_among blocks.now file ≡ true → IsDurable (V.disk vol.new) file) }
    ensures quiet { V.told → Quiet (V.disk vol.old) (V.disk vol.new) }
    ensures cause { HasCause (V.faults vol.old) (V.faults vol.new) (IsErr result) }
    ensures refusals { V.refusals vol.old ≤ V.refusals vol.new }
    ensures later { (V.disk vol.old).moment ≤ (V.disk vol.new).moment }
{
    for block in blocks {
        vol.sync(block.file)?;
    }
    Ok(())
}

/// Syncs the blocks of a table, so that what is read of them is what a crash leaves.
fn sync_blocks<V: Vol>(vol: &mut V, table: &BlockTable) -> Result<(), Failed>
    ensures synced { V.told → OnOk result (AreSynced table.now (V.disk vol.new)) }
    ensures table { OnOk result (IsTable table.now) }
    ensures quiet { V.told → Quiet (V.disk vol.old) (V.disk vol.new) }
    ensures cause { HasCause (V.faults vol.old) (V.faults vol.new) (IsErr result) }
    ensures refusals { V.refusals vol.old ≤ V.refusals vol.new }
    ensures later { (V.disk vol.old).moment ≤ (V.disk vol.new).moment }
{
    sync_all(vol, table.older())?;
    match table.writing() {
        Some(block) => vol.sync(block.file),
        None => Ok(()),
    }
}

/// The messages that it has.
pub(crate) fn messages_of(durable: &Durable) -> &[Message]
    ensures value { result.now ≡ stored_messages durable.now }
{
    match &durable.body {
        Some(body) => body.messages.as_slice(),
        None => &[],
    }
}

/// The last sequence that its stream gave, 0 if there is none.
fn last_of(durable: &Durable) -> u64
    ensures value { result ≡ last_of_durable durable.now }
{
    match &durable.body {
        Some(body) => body.last,
        None => 0,
    }
}

/// The same with these messages.
fn with_messages(durable: Durable, messages: List<Message>) -> Durable
    ensures value { result ≡ with_messages_in durable messages }
{
    let mut read = durable;
    if let Some(body) = &mut read.body {
        body.messages = messages;
    }
    read
}

/// Reads the messages that a log tells, out of their blocks, each of which is synced before.
fn read_blocks<V: Vol>(alloc: Global, vol: &mut V, read: LogRead) -> Result<Found, OpenFault>
    requires logged { IsLogged (given_in read) }
    requires storable { IsStorable read.durable }
    ensures read { IfOk result (IsReadOf read) }
    ensures table { IfOk result (λ found. IsTable found.table) }
    ensures placed { IfOk result (λ found. length found.table.placed ≡ length (stored_messages found.durable)) }
    ensures formed { IfOk result (λ found. IsFormed found.durable) }
    ensures storable { IfOk result (λ found. IsStorable found.durable) }
    ensures stored { V.told → IfOk result (IsStoredBy (V.disk vol.old)) }
    ensures synced { V.told → IfOk result (λ found. AreSynced found.table (V.disk vol.new)) }
    ensures fault { V.told → IfErr result (IsBlocksFault read (V.disk vol.old)) }
    ensures quiet { V.told → Quiet (V.disk vol.old) (V.disk vol.new) }
    ensures no_room { ¬ IsErrOf result OpenFault.NoRoom }
    ensures cause { HasCause (V.faults vol.old) (V.faults vol.new) (IsErrOf result OpenFault.Fault) }
    ensures refusals { V.refusals vol.old ≤ V.refusals vol.new }
    ensures later { (V.disk vol.old).moment ≤ (V.disk vol.new).moment }
{
    sync_blocks(vol, &read.table)?;
    let last = last_of(&read.durable);
    let messages = read_messages(alloc, vol, &read.table, last, messages_of(&read.durable))?;
    Ok(Found {
        durable: with_messages(read.durable, messages),
        table: read.table,
    })
}

/// What the current log gives, with the messages of its blocks.
pub(crate) fn read_current<V: Vol>(
    alloc: Global,
    vol: &mut V,
    current: &Current,
) -> Result<Found, OpenFault>
    requires settled { V.told → (batches : List Bytes) × IsSettled current.now.log batches (V.disk vol.old) }
    ensures found { V.told → IfOk result (IsFound current.now.log (V.disk vol.old)) }
    ensures synced { V.told → IfOk result (λ found. AreSynced found.table (V.disk vol.new)) }
    // Of any volume:
    ensures table { IfOk result (λ found. IsTable found.table) }
    ensures given { IfOk result (λ found. IsLogged (logged found.durable found.table)) }
    ensures held { IfOk result (λ found. length (blocks found.table) ≤ length (stored_messages found.durable) + 1) }
    ensures formed { IfOk result (λ found. IsFormed found.durable) }
    ensures storable { IfOk result (λ found. IsStorable found.durable) }
    ensures openable { IfOk result (λ found. IsOpenable found.durable) }
    ensures fault { V.told → IfErr result (IsRecordsFault current.now.file current.now.log (V.disk vol.old)) }
    ensures quiet { V.told → Quiet (V.disk vol.old) (V.disk vol.new) }
    ensures no_room { ¬ IsErrOf result OpenFault.NoRoom }
    ensures cause { HasCause (V.faults vol.old) (V.faults vol.new) (IsErrOf result OpenFault.Fault) }
    ensures refusals { V.refusals vol.old ≤ V.refusals vol.new }
    ensures later { (V.disk vol.old).moment ≤ (V.disk vol.new).moment }
{
    let read = match read_log(alloc, vol, &current.log) {
        Ok(read) => read,
        Err(fault) => return Err(OpenFault::of_records(current.file, fault)),
    };
    let last = read.last;
    let found = read_blocks(alloc, vol, read)?;
    if is_openable(alloc, &found.durable)? {
        Ok(found)
    } else {
        Err(OpenFault::Damaged {
            file: current.file,
            at: last,
        })
    }
}
