//! What stands in the lists of a snapshot.

ghost use Rattle.std.specs.Prelude.{◌≡◌, ◌++◌, IsTrue, OnOk};
ghost use Rattle.state_snapshot.specs.Reading.{message_field, block_field, id_field, pending_field, consumer_state_field};
ghost use Rattle.state_snapshot.specs.Spelling.{spelled_message, spelled_block, spelled_id, spelled_pending, spelled_made, spelled_progress, spelled_consumer};
ghost use Rattle.state_snapshot.specs.Allowed.{is_message, is_block, is_id, is_pending, is_made, is_progress, is_consumer};

use crate::entry::{Entry, put_list, read_list};
use crate::snapshot::StoredMessage;
use block_table::Block;
use js_base::{List, NoMemory, put_u16, put_u32, put_u64};
use js_model::{Consumer, Id, Pending};
use op_records::{
    Reader, RecordFault, put_consumer_config, put_name, put_numbers, put_spot, put_text, put_two,
};
use std::alloc::Global;

impl Entry for StoredMessage {
    ghost field = { message_field };

    ghost spelling = { spelled_message };

    ghost may = { is_message };

    #[tactic(auto, unfolding(crate::specs::Reading::message_field))]
    fn read(reader: &mut Reader<'_>) -> Result<StoredMessage, RecordFault> {
        let seq = reader.number()?;
        let at = reader.moment()?;
        let spot = reader.spot()?;
        Ok(StoredMessage { seq, at, spot })
    }

    #[tactic(auto, unfolding(crate::specs::Spelling::spelled_message))]
    fn put(&self, _alloc: Global, into: &mut Vec<u8>) -> Result<(), NoMemory> {
        put_two(into, self.seq, self.at.as_nanos())?;
        put_spot(into, self.spot)
    }
}

impl Entry for Block {
    ghost field = { block_field };

    ghost spelling = { spelled_block };

    ghost may = { is_block };

    #[tactic(auto, unfolding(crate::specs::Reading::block_field))]
    fn read(reader: &mut Reader<'_>) -> Result<Block, RecordFault> {
        let file = reader.short_word()?;
        let end = reader.word()?;
        Ok(Block {
            file: u32::from(file),
            end,
        })
    }

    #[tactic(auto, unfolding(crate::specs::Spelling::spelled_block))]
    fn put(&self, _alloc: Global, into: &mut Vec<u8>) -> Result<(), NoMemory> {
        put_u16(into, self.file as u16)?;
        put_u32(into, self.end)
    }
}

impl Entry for Id {
    ghost field = { id_field };

    ghost spelling = { spelled_id };

    ghost may = { is_id };

    #[tactic(auto, unfolding(crate::specs::Reading::id_field))]
    fn read(reader: &mut Reader<'_>) -> Result<Id, RecordFault> {
        let id = reader.text()?;
        let seq = reader.number()?;
        let at = reader.moment()?;
        Ok(Id { id, seq, at })
    }

    #[tactic(auto, unfolding(crate::specs::Spelling::spelled_id))]
    fn put(&self, _alloc: Global, into: &mut Vec<u8>) -> Result<(), NoMemory> {
        put_text(into, &self.id)?;
        put_two(into, self.seq, self.at.as_nanos())
    }
}

impl Entry for Pending {
    ghost field = { pending_field };

    ghost spelling = { spelled_pending };

    ghost may = { is_pending };

    #[tactic(auto, unfolding(crate::specs::Reading::pending_field))]
    fn read(reader: &mut Reader<'_>) -> Result<Pending, RecordFault> {
        let seq = reader.number()?;
        let count = reader.number()?;
        let due = reader.moment()?;
        Ok(Pending { seq, count, due })
    }

    #[tactic(auto, unfolding(crate::specs::Spelling::spelled_pending))]
    fn put(&self, _alloc: Global, into: &mut Vec<u8>) -> Result<(), NoMemory> {
        put_two(into, self.seq, self.count)?;
        put_u64(into, self.due.as_nanos())
    }
}

impl Entry for Consumer {
    ghost field = { consumer_state_field };

    ghost spelling = { spelled_consumer };

    ghost may = { is_consumer };

    #[tactic(auto, unfolding(crate::specs::Reading::consumer_state_field))]
    fn read(reader: &mut Reader<'_>) -> Result<Consumer, RecordFault> {
        let begin = reader.at;
        let name = reader.name()?;
        let made = reader.moment()?;
        let config = reader.consumer_config()?;
        if config.name.as_slice() != name.as_slice() {
            return Err(RecordFault::BadField(begin));
        }
        let cursor = reader.cursor()?;
        let dseq = reader.number()?;
        let picks = reader.numbers()?;
        let pending = read_list::<Pending>(reader)?;
        let given_up = reader.numbers()?;
        Ok(Consumer {
            name,
            made,
            config,
            picks,
            cursor,
            dseq,
            pending,
            given_up,
            waiting: List::new(reader.alloc),
            mark: made,
        })
    }

    #[tactic(auto, unfolding(crate::specs::Spelling::spelled_consumer))]
    fn put(&self, alloc: Global, into: &mut Vec<u8>) -> Result<(), NoMemory> {
        put_made(alloc, self, into)?;
        put_progress(alloc, self, into)
    }
}

/// Adds which consumer it is.
fn put_made(alloc: Global, consumer: &Consumer, into: &mut Vec<u8>) -> Result<(), NoMemory>
    requires allowed { IsTrue (is_made consumer.now) }
    ensures ok { OnOk result (into.new.items ≡ into.old.items ++ spelled_made consumer.now) }
{
    put_name(into, consumer.name.as_slice())?;
    put_u64(into, consumer.made.as_nanos())?;
    put_consumer_config(alloc, into, &consumer.config)
}

/// Adds what a consumer has delivered, and what is still to be.
fn put_progress(alloc: Global, consumer: &Consumer, into: &mut Vec<u8>) -> Result<(), NoMemory>
    requires allowed { IsTrue (is_progress consumer.now) }
    ensures ok { OnOk result (into.new.items ≡ into.old.items ++ spelled_progress consumer.now) }
{
    put_two(into, consumer.cursor, consumer.dseq)?;
    put_numbers(into, &consumer.picks)?;
    put_list(alloc, consumer.pending.as_slice(), into)?;
    put_numbers(into, &consumer.given_up)
}
