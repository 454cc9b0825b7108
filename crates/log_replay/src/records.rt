//! Records of a stream that stays.

ghost use Rattle.std.specs.Prelude.{ℕ, OnOk};
ghost use Rattle.std.specs.Bool.{OnTrue};
ghost use Rattle.effects.specs.Folding.{live};
ghost use Rattle.durable_checks.specs.Storable.{IsStorable};
ghost use Rattle.log_replay.specs.Given.{IsGiven};
ghost use Rattle.log_replay.specs.Made.{Makes};
ghost use Rattle.log_replay.specs.Taken.{IsChange};

use crate::body::ReplayedBody;
use effects::Effect;
use js_base::NoMemory;
use js_model::{Message, Pending};
use std::alloc::Global;

impl ReplayedBody {
    /// Whether the record can be made of the stream, which stays.
    pub(crate) fn takes(&self, effect: &Effect) -> bool
        ensures change { OnTrue result (IsChange self.now effect.now) }
    {
        match effect {
            Effect::MakeStream { .. } | Effect::DropStream => false,
            Effect::ChangeStream { .. } | Effect::Remove { .. } => true,
            Effect::PutHere { seq, at, id, .. } => self.takes_message(*seq, *at, id),
            Effect::Skip { seq, at, id } => self.takes_number(*seq, *at, id),
            Effect::MakeConsumer {
                name,
                cursor,
                picks,
                ..
            } => self.takes_start(name, *cursor, picks.as_slice()),
            Effect::Deliver {
                name,
                seq,
                count,
                due,
                dseq,
            } => {
                let entry = Pending {
                    seq: *seq,
                    count: *count,
                    due: *due,
                };
                self.takes_delivery(name, entry, *dseq)
            }
            Effect::DropConsumer { name }
            | Effect::Acked { name, .. }
            | Effect::GivenUp { name, .. } => self.has_consumer(name),
            Effect::Due { name, seq, .. } => self.takes_due(name, *seq),
            Effect::Now { moment } => self.moment <= *moment,
        }
    }

    /// Makes the record. An `Err` may leave some of what it says.
    pub(crate) fn make(&mut self, alloc: Global, effect: Effect) -> Result<(), NoMemory>
        requires given { IsGiven effect }
        requires change { IsChange self.old effect }
        requires storable { (i : ℕ) × IsStorable (live i self.old) }
        ensures made { OnOk result (Makes self.old effect self.new) }
    {
        match effect {
            Effect::MakeStream { .. } | Effect::DropStream => unreachable!(),
            Effect::ChangeStream { config } => {
                self.set_config(config);
                Ok(())
            }
            Effect::PutHere {
                seq,
                at,
                id,
                subject,
                headers,
                payload,
            } => {
                let message = Message {
                    seq,
                    at,
                    subject,
                    headers,
                    payload,
                };
                self.put(message, &id)
            }
            Effect::Skip { seq, at, id } => self.skip(seq, at, &id),
            Effect::Remove { low, high } => {
                self.remove(low, high);
                Ok(())
            }
            Effect::MakeConsumer {
                name,
                made,
                config,
                cursor,
                picks,
            } => self.start(alloc, name, made, config, cursor, picks.as_slice()),
            Effect::DropConsumer { name } => {
                self.drop_consumer(&name);
                Ok(())
            }
            Effect::Deliver {
                name,
                seq,
                count,
                due,
                dseq,
            } => self.deliver(&name, Pending { seq, count, due }, dseq),
            Effect::Acked { name, low, high } => {
                self.end(&name, low, high);
                Ok(())
            }
            Effect::Due { name, seq, due } => {
                self.set_due(&name, seq, due);
                Ok(())
            }
            Effect::GivenUp { name, moment } => {
                self.give_up(&name, moment);
                Ok(())
            }
            Effect::Now { moment } => {
                self.see(moment);
                Ok(())
            }
        }
    }
}
