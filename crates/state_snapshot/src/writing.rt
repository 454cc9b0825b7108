//! Snapshots as they are written.

ghost use Rattle.std.specs.Prelude.{◌≡◌, ◌++◌, true, map, Some, IsSome, IsTrue, OnOk};
ghost use Rattle.std.specs.List.{flat_map, list_all};
ghost use Rattle.std.specs.Option.{option_to_list};
ghost use Rattle.js_model.specs.Streams.{seqs};
ghost use Rattle.op_records.specs.Allowed.{is_list};
ghost use Rattle.op_records.specs.Spelling.{spelled_list};
ghost use Rattle.block_table.specs.Blocks.{spot_of};
ghost use Rattle.block_table.specs.Tables.{AreRising};
ghost use Rattle.durable_checks.specs.Storable.{IsFormed, IsStorable};
ghost use Rattle.state_snapshot.specs.Allowed.{is_message, is_block, is_body, is_head, is_stored};
ghost use Rattle.state_snapshot.specs.Snapshots.{HasSpots, body_in, snapshot_of, stored_in};
ghost use Rattle.state_snapshot.specs.Spelling.{spelled_block, spelled_body, spelled_head, spelled_message, spelled_snapshot, spelled_stored, spelled_with};

use crate::entry::{Entry, put_count, put_list};
use crate::snapshot::StoredMessage;
use block_table::{Block, BlockTable};
use effects::{Body, Durable};
use js_base::{NoMemory, put_u64};
use js_model::Message;
use op_records::{put_kind, put_stream_config, put_two, write_vacant};
use std::alloc::Global;

/// The kind of a snapshot with a stream, its first byte.
const LIVE: u8 = 33;

/// The message, with the spot that the table has for it.
fn stored(message: &Message, table: &BlockTable) -> StoredMessage
    requires placed { IsSome (spot_of table.now.placed message.now.seq) }
    ensures value { Some result.spot ≡ spot_of table.now.placed message.now.seq }
    ensures seq { result.seq ≡ message.now.seq }
    ensures at { result.at ≡ message.now.at }
{
    let Some(spot) = table.spot(message.seq) else {
        unreachable!()
    };
    StoredMessage {
        seq: message.seq,
        at: message.at,
        spot,
    }
}

/// Adds each of the messages.
fn put_each_message(
    alloc: Global,
    messages: &[Message],
    table: &BlockTable,
    into: &mut Vec<u8>,
) -> Result<(), NoMemory>
    requires rising { AreRising table.now.placed }
    requires placed { map (λ p. p.seq) table.now.placed ≡ seqs messages.now }
    requires allowed { list_all is_message (stored_in table.now.placed messages.now) ≡ true }
    ensures ok { OnOk result (into.new.items ≡ into.old.items ++ flat_map spelled_message (stored_in table.now.placed messages.now)) }
{
    for message in messages {
        stored(message, table).put(alloc, into)?;
    }
    Ok(())
}

/// Adds the messages behind their count.
fn put_messages(
    alloc: Global,
    messages: &[Message],
    table: &BlockTable,
    into: &mut Vec<u8>,
) -> Result<(), NoMemory>
    requires rising { AreRising table.now.placed }
    requires placed { map (λ p. p.seq) table.now.placed ≡ seqs messages.now }
    requires allowed { IsTrue (is_list is_message (stored_in table.now.placed messages.now)) }
    ensures ok { OnOk result (into.new.items ≡ into.old.items ++ spelled_list spelled_message (stored_in table.now.placed messages.now)) }
{
    put_count(into, messages.len())?;
    put_each_message(alloc, messages, table, into)
}

/// Adds the block being written, if there is one, as a list.
fn put_writing(alloc: Global, block: Option<Block>, into: &mut Vec<u8>) -> Result<(), NoMemory>
    requires allowed { IsTrue (is_list is_block (option_to_list block)) }
    ensures ok { OnOk result (into.new.items ≡ into.old.items ++ spelled_list spelled_block (option_to_list block)) }
{
    match block {
        Some(block) => put_list(alloc, &[block], into),
        None => put_count(into, 0),
    }
}

/// Adds which stream it is, and how far it has come.
fn put_head(alloc: Global, body: &Body, into: &mut Vec<u8>) -> Result<(), NoMemory>
    requires allowed { IsTrue (is_head body.now.made body.now.moment body.now.last body.now.config) }
    ensures ok { OnOk result (into.new.items ≡ into.old.items ++ spelled_head body.now.made body.now.moment body.now.last body.now.config) }
{
    put_two(into, body.made.as_nanos(), body.moment.as_nanos())?;
    put_u64(into, body.last)?;
    put_stream_config(alloc, into, &body.config)
}

/// Adds a stream's messages, and the blocks in which they lie.
fn put_stored(
    alloc: Global,
    body: &Body,
    table: &BlockTable,
    into: &mut Vec<u8>,
) -> Result<(), NoMemory>
    requires placed { map (λ p. p.seq) table.now.placed ≡ seqs body.now.messages }
    requires allowed { IsTrue (is_stored (body_in table.now body.now)) }
    ensures ok { OnOk result (into.new.items ≡ into.old.items ++ spelled_stored (body_in table.now body.now)) }
{
    let older = table.older();
    put_messages(alloc, body.messages.as_slice(), table, into)?;
    put_list(alloc, older, into)?;
    put_writing(alloc, table.writing(), into)
}

#[tactic(auto, unfolding(crate::specs::Spelling::spelled_body))]
fn put_body(
    alloc: Global,
    body: &Body,
    table: &BlockTable,
    into: &mut Vec<u8>,
) -> Result<(), NoMemory>
    requires placed { map (λ p. p.seq) table.now.placed ≡ seqs body.now.messages }
    requires allowed { IsTrue (is_body (body_in table.now body.now)) }
    ensures ok { OnOk result (into.new.items ≡ into.old.items ++ spelled_body (body_in table.now body.now)) }
{
    put_head(alloc, body, into)?;
    put_stored(alloc, body, table, into)?;
    put_list(alloc, body.ids.as_slice(), into)?;
    put_list(alloc, body.consumers.as_slice(), into)
}

/// Adds the snapshot of a place with this stream.
fn put_live(
    alloc: Global,
    incarnation: u64,
    body: &Body,
    table: &BlockTable,
    into: &mut Vec<u8>,
) -> Result<(), NoMemory>
    requires placed { map (λ p. p.seq) table.now.placed ≡ seqs body.now.messages }
    requires allowed { IsTrue (is_body (body_in table.now body.now)) }
    ensures ok { OnOk result (into.new.items ≡ into.old.items ++ spelled_with incarnation (Some (body_in table.now body.now))) }
{
    put_kind(into, LIVE)?;
    put_u64(into, incarnation)?;
    put_body(alloc, body, table, into)
}

/// Adds the snapshot of what outlives a crash of a place, with the spots that the table has for its messages. An `Err` leaves some of it behind what was
/// there.
#[tactic(auto, unfolding(crate::specs::Spelling::spelled_snapshot))]
pub fn write_snapshot(
    alloc: Global,
    durable: &Durable,
    table: &BlockTable,
    into: &mut Vec<u8>,
) -> Result<(), NoMemory>
    requires formed { IsFormed durable.now }
    requires storable { IsStorable durable.now }
    requires spots { HasSpots durable.now table.now }
    ensures ok { OnOk result (into.new.items ≡ into.old.items ++ spelled_snapshot (snapshot_of durable.now table.now)) }
{
    let _older = table.older();
    match &durable.body {
        Some(body) => put_live(alloc, durable.incarnation, body, table, into),
        None => write_vacant(alloc, durable.incarnation, into),
    }
}
