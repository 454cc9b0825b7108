//! What the snapshot tells with which a log begins.

ghost use Rattle.std.specs.Prelude.{◌≡◌, ◌↔◌, Some, map, IfOk, IfSome, IsTrue, IsSome};
ghost use Rattle.model_laws.specs.Sound.{AreOrdered};
ghost use Rattle.js_model.specs.Configs.{is_number};
ghost use Rattle.js_model.specs.Consumers.{is_before as is_before_in};
ghost use Rattle.effects.specs.Folding.{live};
ghost use Rattle.block_table.specs.Tables.{IsTable};
ghost use Rattle.durable_checks.specs.Storable.{IsFormedBody, IsStorable};
ghost use Rattle.state_snapshot.specs.Allowed.{is_body, is_body_if_any, is_snapshot};
ghost use Rattle.log_records.specs.Beginnings.{CanBegin, blocks_told, body_told, logged_in, logged_of, message_told, place_told};
ghost use Rattle.log_records.specs.Holding.{IsHeldOf, IsMadeOf};
ghost use Rattle.log_records.specs.Unread.{unread_subject};

use crate::held::Held;
use crate::made::{Made, UNREAD};
use block_table::{BlockTable, Placed};
use durable_checks::is_storable;
use effects::{Body, Durable};
use js_base::{Blob, List, NoMemory};
use js_model::{Consumer, Message};
use state_snapshot::{Snapshot, SnapshotBody, StoredMessage};
use std::alloc::Global;

/// The message, which is not read.
fn message_of(subject: &Blob, stored: &StoredMessage) -> Result<Message, NoMemory>
    requires subject { subject.now ≡ unread_subject }
    ensures value { IfOk result (λ message. message ≡ message_told stored.now) }
{
    let subject = subject.clone()?;
    Ok(Message {
        seq: stored.seq,
        at: stored.at,
        subject,
        headers: Blob::empty(),
        payload: Blob::empty(),
    })
}

/// The messages, none of which is read.
fn messages_of(
    alloc: Global,
    subject: &Blob,
    stored: &[StoredMessage],
) -> Result<List<Message>, NoMemory>
    requires subject { subject.now ≡ unread_subject }
    ensures value { IfOk result (λ messages. messages ≡ map message_told stored.now) }
{
    let mut messages = List::new(alloc);
    for one in stored {
        messages.push(message_of(subject, one)?)?;
    }
    Ok(messages)
}

/// Where the messages lie.
fn places_of(alloc: Global, stored: &[StoredMessage]) -> Result<Vec<Placed>, NoMemory>
    ensures value { IfOk result (λ placed. placed.items ≡ map place_told stored.now) }
{
    let placed = stored.iter().map(|one| Placed {
        seq: one.seq,
        spot: one.spot,
    });
    Ok(placed.collect(alloc)?)
}

/// The stream, its messages not read, and the table of its blocks, or `None` exactly if these are no table.
fn parts_of(
    alloc: Global,
    subject: &Blob,
    told: SnapshotBody,
) -> Result<Option<(Body, BlockTable)>, NoMemory>
    requires subject { subject.now ≡ unread_subject }
    ensures body { IfOk result (λ found. IfSome found (λ r. r.0 ≡ body_told told)) }
    ensures blocks { IfOk result (λ found. IfSome found (λ r. r.1 ≡ blocks_told told)) }
    ensures table { IfOk result (λ found. IsSome found ↔ IsTable (blocks_told told)) }
{
    let messages = messages_of(alloc, subject, told.messages.as_slice())?;
    let placed = places_of(alloc, told.messages.as_slice())?;
    let older = told.older.into_vec();
    let Some(table) = BlockTable::restore(alloc, placed.as_slice(), older, told.writing)? else {
        return Ok(None);
    };
    let body = Body {
        made: told.made,
        moment: told.moment,
        last: told.last,
        config: told.config,
        messages,
        ids: told.ids,
        consumers: told.consumers,
    };
    Ok(Some((body, table)))
}

/// Whether the name of the one comes before that of the other.
fn is_before(one: &Consumer, other: &Consumer) -> bool
    ensures value { result ≡ is_before_in one.now.name other.now.name }
{
    one.name.as_slice().cmp(other.name.as_slice()).is_lt()
}

/// Whether the consumers stand in order of their names.
fn are_in_order(consumers: &[Consumer]) -> bool
    ensures value { IsTrue result ↔ AreOrdered consumers.now }
{
    for place in 1..consumers.len() {
        let before = place - 1;
        if !is_before(&consumers[before], &consumers[place]) {
            return false;
        }
    }
    true
}

/// What outlives a crash of the place, or `None` exactly if it is not storable.
fn held_of(alloc: Global, incarnation: u64, body: Body) -> Result<Option<Held>, NoMemory>
    requires formed { AreOrdered body.consumers → IsFormedBody body }
    ensures value { IfOk result (λ found. IfSome found (IsHeldOf (live incarnation body))) }
    ensures storable { IfOk result (λ found. IsSome found ↔ IsStorable (live incarnation body)) }
{
    if !are_in_order(body.consumers.as_slice()) {
        return Ok(None);
    }
    let durable = Durable {
        incarnation,
        body: Some(body),
    };
    if !is_storable(alloc, &durable)? {
        return Ok(None);
    }
    let held = Held::of(alloc, durable)?;
    Ok(Some(held))
}

/// What a snapshot with a stream tells, or `None` exactly if no log can begin with it.
fn live_made(alloc: Global, incarnation: u64, told: SnapshotBody) -> Result<Option<Made>, NoMemory>
    requires allowed { IsTrue (is_body told) }
    ensures value { IfOk result (λ found. IfSome found (IsMadeOf (logged_of incarnation (Some told)))) }
    ensures can { IfOk result (λ found. IsSome found ↔ CanBegin (logged_of incarnation (Some told))) }
{
    let subject = Blob::of(alloc, UNREAD)?;
    let Some((body, table)) = parts_of(alloc, &subject, told)? else {
        return Ok(None);
    };
    let Some(held) = held_of(alloc, incarnation, body)? else {
        return Ok(None);
    };
    Ok(Some(Made {
        held,
        table,
        subject,
    }))
}

/// What a snapshot of this incarnation tells, or `None` exactly if no log can begin with it.
fn made_from(
    alloc: Global,
    incarnation: u64,
    body: Option<SnapshotBody>,
) -> Result<Option<Made>, NoMemory>
    requires number { IsTrue (is_number incarnation) }
    requires allowed { IsTrue (is_body_if_any body) }
    ensures value { IfOk result (λ found. IfSome found (IsMadeOf (logged_of incarnation body))) }
    ensures can { IfOk result (λ found. IsSome found ↔ CanBegin (logged_of incarnation body)) }
{
    match body {
        Some(told) => live_made(alloc, incarnation, told),
        None => Ok(Some(Made::beginning(alloc, incarnation)?)),
    }
}

/// What a snapshot tells, or `None` exactly if no log can begin with it.
pub(crate) fn made_of(alloc: Global, snapshot: Snapshot) -> Result<Option<Made>, NoMemory>
    requires allowed { IsTrue (is_snapshot snapshot) }
    ensures value { IfOk result (λ found. IfSome found (IsMadeOf (logged_in snapshot))) }
    ensures can { IfOk result (λ found. IsSome found ↔ CanBegin (logged_in snapshot)) }
{
    made_from(alloc, snapshot.incarnation, snapshot.body)
}
