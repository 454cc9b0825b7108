//! Records of all kinds.

ghost use Rattle.std.specs.Prelude.{◌≡◌, Some, OnOk, IfErr};
ghost use Rattle.effects.specs.Folding.{fold};
ghost use Rattle.record_fold.specs.Entries.{AreOrderedIn, IsGiven};
ghost use Rattle.record_fold.specs.Faults.{IsFoldFault};

use crate::change::Change;
use crate::durables::{
    add_consumer, change_named, change_stream, drop_stream, make_stream, put_message,
    remove_consumer, remove_range, see_moment, skip,
};
use crate::fault::FoldFault;
use crate::streams::new_consumer;
use effects::{Durable, Effect};
use js_model::{Message, Pending};
use std::alloc::Global;

/// Adds a record to what a volume held. Its consumers are in order of their names.
///
/// `Misfit` comes exactly if the record does not fit what the volume held, and tells the field that is wrong; an `Err` may leave some of what the record
/// says.
pub fn fold(alloc: Global, durable: &mut Durable, effect: Effect) -> Result<(), FoldFault>
    requires ordered { AreOrderedIn durable.old }
    requires given { IsGiven effect }
    ensures ok { OnOk result (fold durable.old effect ≡ Some durable.new) }
    ensures err { IfErr result (IsFoldFault durable.old effect) }
{
    match effect {
        Effect::MakeStream {
            incarnation,
            made,
            config,
        } => make_stream(alloc, durable, incarnation, made, config),
        Effect::ChangeStream { config } => change_stream(durable, config),
        Effect::DropStream => drop_stream(durable),
        Effect::PutHere {
            seq,
            at,
            id,
            subject,
            headers,
            payload,
        } => {
            let message = Message {
                seq,
                at,
                subject,
                headers,
                payload,
            };
            put_message(durable, message, id)
        }
        Effect::Skip { seq, at, id } => skip(durable, seq, at, id),
        Effect::Remove { low, high } => remove_range(alloc, durable, low, high),
        Effect::MakeConsumer {
            name,
            made,
            config,
            cursor,
            picks,
        } => {
            let new = new_consumer(alloc, name, made, config, cursor, picks);
            add_consumer(alloc, durable, new)
        }
        Effect::DropConsumer { name } => remove_consumer(alloc, durable, &name),
        Effect::Deliver {
            name,
            seq,
            count,
            due,
            dseq,
        } => {
            let entry = Pending { seq, count, due };
            change_named(alloc, durable, &name, Change::Deliver { entry, dseq })
        }
        Effect::Acked { name, low, high } => {
            change_named(alloc, durable, &name, Change::End { low, high })
        }
        Effect::Due { name, seq, due } => {
            change_named(alloc, durable, &name, Change::Due { seq, due })
        }
        Effect::GivenUp { name, moment } => {
            change_named(alloc, durable, &name, Change::GiveUp { moment })
        }
        Effect::Now { moment } => see_moment(alloc, durable, moment),
    }
}
