//! What a commit writes.

ghost use Rattle.std.specs.Prelude.{◌≡◌, ◌≤◌, ◌++◌, ◌∷◌, [], None, length, IsTrue, IfOk, OnOk, IsErrOf};
ghost use Rattle.op_records.specs.Allowed.{is_record, is_text};
ghost use Rattle.op_records.specs.Blocks.{is_block_message, spelled_message};
ghost use Rattle.op_records.specs.Spelling.{spelled, spelled_record};
ghost use Rattle.op_records.specs.declared.record.Record.TheVariants.{Put};
ghost use Rattle.block_table.specs.Placings.{place};
ghost use Rattle.block_writing.specs.Planning.{message_by, with_message};
ghost use Rattle.block_writing.specs.Plans.{HasNoSpot, IsAdded, IsPut, WritesBlock};

use crate::fault::PlanFault;
use crate::run::{Run, add_message};
use block_table::{BlockTable, Placing};
use effects::Effect;
use js_base::{Blob, Moment, NoMemory, Spot};
use js_model::Message;
use op_records::{Record, message_len, write_effect, write_record};
use std::alloc::Global;

/// What a commit writes: the messages into blocks, and then the records that tell where these lie into the log.
#[derive(Drop)]
pub struct Plan {
    /// The records, as the bytes of a batch.
    pub batch: Vec<u8>,
    /// Where the messages go, in their order.
    pub spots: Vec<Spot>,
    /// The messages, in each file that gets some.
    pub runs: Vec<Run>,
}

/// The message of these parts.
fn message_of(
    seq: u64,
    at: Moment,
    subject: &Blob,
    headers: &Blob,
    payload: &Blob,
) -> Result<Message, NoMemory>
    ensures value { IfOk result (λ m. m ≡ message_by seq at subject.now headers.now payload.now) }
{
    Ok(Message {
        seq,
        at,
        subject: subject.clone()?,
        headers: headers.clone()?,
        payload: payload.clone()?,
    })
}

/// The record of a message that is stored with this id at this spot.
fn record_of(message: &Message, id: &Blob, spot: Spot) -> Result<Record, NoMemory>
    ensures value { IfOk result (λ entry. entry ≡ Put message.now.seq message.now.at id.now spot) }
{
    let id = id.clone()?;
    Ok(Record::Put {
        seq: message.seq,
        at: message.at,
        id,
        spot,
    })
}

/// Writes that record at the end. An `Err` leaves what was there.
fn write_put(
    alloc: Global,
    message: &Message,
    id: &Blob,
    spot: Spot,
    into: &mut Vec<u8>,
) -> Result<(), NoMemory>
    requires file { spot.file ≤ 65535 }
    requires allowed { IsTrue (is_block_message message.now) }
    requires id { IsTrue (is_text id.now) }
    ensures ok { OnOk result (into.new.items ≡ into.old.items ++ spelled_record (Put message.now.seq message.now.at id.now spot)) }
{
    let entry = record_of(message, id, spot)?;
    write_record(alloc, &entry, into)
}

impl Plan {
    /// Adds another change than a message that is stored. An `Err` may leave some of it.
    fn change(&mut self, alloc: Global, effect: &Effect) -> Result<(), PlanFault>
        requires allowed { IsTrue (is_record effect.now) }
        ensures batch { OnOk result (self.new.batch.items ≡ self.old.batch.items ++ spelled effect.now) }
        ensures spots { self.new.spots ≡ self.old.spots }
        ensures runs { self.new.runs ≡ self.old.runs }
        ensures room { IsErrOf result PlanFault.NoRoom → ⊥ }
    {
        write_effect(alloc, effect, &mut self.batch)?;
        Ok(())
    }

    /// Adds a message that is stored with this id at this spot. An `Err` may leave some of it.
    fn put_at(
        &mut self,
        alloc: Global,
        spot: Spot,
        id: &Blob,
        message: &Message,
    ) -> Result<(), NoMemory>
        requires file { spot.file ≤ 65535 }
        requires allowed { IsTrue (is_block_message message.now) }
        requires id { IsTrue (is_text id.now) }
        ensures batch { OnOk result (self.new.batch.items ≡ self.old.batch.items ++ spelled_record (Put message.now.seq message.now.at id.now spot)) }
        ensures spots { OnOk result (self.new.spots.items ≡ self.old.spots.items ++ spot ∷ []) }
        ensures runs { OnOk result (self.new.runs.items ≡ with_message self.old.runs.items spot (spelled_message message.now)) }
    {
        write_put(alloc, message, id, spot, &mut self.batch)?;
        self.spots.push(spot)?;
        add_message(alloc, &mut self.runs, spot, message)
    }

    /// Adds a message that is stored with this id, at the next spot. `NoRoom` comes only if there is none. An `Err` may leave some of it.
    fn put(
        &mut self,
        alloc: Global,
        table: &BlockTable,
        placing: &mut Placing,
        id: &Blob,
        message: &Message,
    ) -> Result<(), PlanFault>
        requires allowed { IsTrue (is_block_message message.now) }
        requires id { IsTrue (is_text id.now) }
        requires block { WritesBlock placing.old }
        ensures ok { OnOk result (IsPut table.now id.now message.now self.old self.new placing.old placing.new) }
        ensures block { OnOk result (WritesBlock placing.new) }
        ensures no_room { IsErrOf result PlanFault.NoRoom → place table.now (length (spelled_message message.now)) placing.old ≡ None }
    {
        let Some(spot) = placing.place(table, message_len(message)) else {
            return Err(PlanFault::NoRoom);
        };
        self.put_at(alloc, spot, id, message)?;
        Ok(())
    }

    /// Adds a change, and its message if it stores one. `NoRoom` comes only if there is no spot for that. An `Err` may leave some of it.
    pub(crate) fn add(
        &mut self,
        alloc: Global,
        table: &BlockTable,
        placing: &mut Placing,
        effect: &Effect,
    ) -> Result<(), PlanFault>
        requires allowed { IsTrue (is_record effect.now) }
        requires block { WritesBlock placing.old }
        ensures ok { OnOk result (IsAdded table.now effect.now self.old self.new placing.old placing.new) }
        ensures block { OnOk result (WritesBlock placing.new) }
        ensures no_room { IsErrOf result PlanFault.NoRoom → HasNoSpot table.now effect.now placing.old }
    {
        match effect {
            Effect::PutHere {
                seq,
                at,
                id,
                subject,
                headers,
                payload,
            } => {
                let message = message_of(*seq, *at, subject, headers, payload)?;
                self.put(alloc, table, placing, id, &message)
            }
            Effect::MakeStream { .. } | Effect::DropStream => {
                placing.restart();
                self.change(alloc, effect)
            }
            _ => self.change(alloc, effect),
        }
    }
}
