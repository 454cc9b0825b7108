//! What the records of a log have made so far, and where its messages lie.

ghost use Rattle.std.specs.Prelude.{◌≡◌, [], ◌<◌, ◌^◌, ◌↔◌, IfOk, IfErr, IsTrue};
ghost use Rattle.op_records.specs.Allowed.{may_stand};
ghost use Rattle.op_records.specs.declared.record.Record.TheVariants.{Put as PutRecord, Change as ChangeRecord};
ghost use Rattle.durable_checks.specs.Storable.{IsStorable};
ghost use Rattle.effects.specs.declared.effect.Effect.TheVariants.{PutHere};
ghost use Rattle.log_records.specs.Unread.{unread_subject};
ghost use Rattle.log_records.specs.Batches.{closed_in};
ghost use Rattle.log_records.specs.Logged.{beginning, blocks_by};
ghost use Rattle.log_records.specs.Holding.{IsSoundMade, given_in, made_in};
ghost use Rattle.log_records.specs.Reading.{IsTaken, IsTakeFault};

use crate::held::Held;
use crate::log::LogRead;
use crate::spots::wrong_field;
use block_table::{BlockTable, PutFault};
use effects::Effect;
use js_base::{Blob, Moment, NoMemory, Spot};
use log_replay::Replay;
use op_records::Record;
use record_fold::FoldFault;
use std::alloc::Global;

/// The subject of a message whose block is not read yet.
pub(crate) const UNREAD: &[u8] = b"-";

/// What the records of a log have made so far.
#[derive(Drop)]
pub(crate) struct Made {
    /// What outlives a crash, its messages unread.
    pub(crate) held: Held,
    /// Where the messages lie.
    pub(crate) table: BlockTable,
    /// The subject of each message that is not read.
    pub(crate) subject: Blob,
}

/// What a change makes of where messages lie.
fn change_table(table: &mut BlockTable, effect: &Effect)
    ensures value { table.new ≡ blocks_by effect.now table.old }
{
    match effect {
        Effect::MakeStream { .. } | Effect::DropStream => table.clear(),
        Effect::Remove { low, high } => table.remove(*low, *high),
        _ => {}
    }
}

/// The change that stores a message, which is not read.
fn unread_put(subject: &Blob, seq: u64, at: Moment, id: Blob) -> Result<Effect, NoMemory>
    requires subject { subject.now ≡ unread_subject }
    ensures value { IfOk result (λ effect. effect ≡ PutHere seq at id unread_subject [] []) }
{
    let subject = subject.clone()?;
    Ok(Effect::PutHere {
        seq,
        at,
        id,
        subject,
        headers: Blob::empty(),
        payload: Blob::empty(),
    })
}

impl Made {
    /// A place without a stream, whose last one, if it had any, had this incarnation.
    pub(crate) fn beginning(alloc: Global, incarnation: u64) -> Result<Made, NoMemory>
        requires number { incarnation < 2 ^ 62 }
        ensures value { IfOk result (λ made. made_in made ≡ beginning incarnation) }
        ensures sound { IfOk result IsSoundMade }
    {
        let subject = Blob::of(alloc, UNREAD)?;
        Ok(Made {
            held: Held::Replayed(Replay::vacant(incarnation)),
            table: BlockTable::new(alloc),
            subject,
        })
    }

    /// With a record more. `Misfit` comes exactly if the record does not fit, and tells the field that is wrong.
    pub(crate) fn take(self, alloc: Global, next: Record) -> Result<Made, FoldFault>
        requires sound { IsSoundMade self }
        requires allowed { IsTrue (may_stand next) }
        ensures taken { IfOk result (IsTaken self next) }
        ensures fault { IfErr result (IsTakeFault (made_in self) next) }
    {
        match next {
            Record::Put { seq, at, id, spot } => self.put(alloc, seq, at, id, spot),
            Record::Change(effect) => self.change(alloc, effect),
        }
    }

    /// With a message more, which is not read.
    fn put(
        self,
        alloc: Global,
        seq: u64,
        at: Moment,
        id: Blob,
        spot: Spot,
    ) -> Result<Made, FoldFault>
        requires sound { IsSoundMade self }
        requires allowed { IsTrue (may_stand (PutRecord seq at id spot)) }
        ensures taken { IfOk result (IsTaken self (PutRecord seq at id spot)) }
        ensures fault { IfErr result (IsTakeFault (made_in self) (PutRecord seq at id spot)) }
    {
        let id_len = id.len();
        let effect = unread_put(&self.subject, seq, at, id)?;
        let held = self.held.fold(alloc, effect)?;
        let mut table = self.table;
        match table.put(seq, spot) {
            Ok(()) => Ok(Made {
                held,
                table,
                subject: self.subject,
            }),
            Err(PutFault::Misfit) => {
                let field = wrong_field(&table, id_len, spot);
                Err(FoldFault::Misfit(field))
            }
            Err(PutFault::NoMemory) => Err(FoldFault::NoMemory),
        }
    }

    /// With another change.
    fn change(self, alloc: Global, effect: Effect) -> Result<Made, FoldFault>
        requires sound { IsSoundMade self }
        requires allowed { IsTrue (may_stand (ChangeRecord effect)) }
        ensures taken { IfOk result (IsTaken self (ChangeRecord effect)) }
        ensures fault { IfErr result (IsTakeFault (made_in self) (ChangeRecord effect)) }
    {
        let mut table = self.table;
        change_table(&mut table, &effect);
        let held = self.held.fold(alloc, effect)?;
        Ok(Made {
            held,
            table,
            subject: self.subject,
        })
    }

    /// At the end of a batch: a block of some size that holds no message is written no more.
    pub(crate) fn closed(self) -> Made
        requires sound { IsSoundMade self }
        ensures value { made_in result ≡ closed_in (made_in self) }
        ensures sound { IsSoundMade result }
    {
        let mut table = self.table;
        table.close();
        Made {
            held: self.held,
            table,
            subject: self.subject,
        }
    }

    /// Whether it is storable. What a replay made is.
    pub(crate) fn is_storable(&self, alloc: Global) -> Result<bool, NoMemory>
        requires sound { IsSoundMade self.now }
        ensures value { IfOk result (λ storable. IsTrue storable ↔ IsStorable (made_in self.now).durable) }
    {
        self.held.is_storable(alloc)
    }

    /// What was read, if the last record stands at this offset.
    pub(crate) fn into_read(self, alloc: Global, last: u64) -> Result<LogRead, NoMemory>
        ensures value { IfOk result (λ read. given_in read ≡ made_in self) }
        ensures last { IfOk result (λ read. read.last ≡ last) }
    {
        let durable = self.held.into_durable(alloc)?;
        Ok(LogRead {
            durable,
            table: self.table,
            last,
        })
    }
}
