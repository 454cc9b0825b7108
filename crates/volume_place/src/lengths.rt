//! How long records are.

ghost use Rattle.std.specs.Prelude.{◌≡◌, ◌+◌, length, IfOk, IfSome, IsTrue};
ghost use Rattle.std.specs.List.{list_all};
ghost use Rattle.op_records.specs.Allowed.{is_record};
ghost use Rattle.op_records.specs.Spelling.{spelled, spelled_record};
ghost use Rattle.stream_store.specs.Committing.{no_spot, recorded_at};
ghost use Rattle.volume_place.specs.Measured.{AddUp, HasLengths, HaveLengths};

use effects::Effect;
use js_base::NoMemory;
use op_records::write_effect;
use std::alloc::Global;

/// How long records are, in bytes.
#[derive(Clone, Copy)]
pub(crate) struct Lengths {
    /// As they wait, with the messages that they store.
    pub(crate) waiting: usize,
    /// As a log has them: in the place of a message it says where that lies.
    pub(crate) logged: usize,
}

impl Lengths {
    /// Those of no record.
    pub(crate) fn none() -> Lengths
        ensures value { result ≡ record { waiting = 0; logged = 0 } }
    {
        Lengths {
            waiting: 0,
            logged: 0,
        }
    }

    /// Those of both together, if they are numbers.
    pub(crate) fn plus(self, more: Lengths) -> Option<Lengths>
        ensures value { IfSome result (AddUp self more) }
    {
        Some(Lengths {
            waiting: self.waiting.checked_add(more.waiting)?,
            logged: self.logged.checked_add(more.logged)?,
        })
    }
}

/// How long the records are, if that is a number.
pub(crate) fn lengths_of(alloc: Global, records: &[Effect]) -> Result<Lengths, NoMemory>
    requires records { IsTrue (list_all is_record records.now) }
    ensures value { IfOk result (HaveLengths records.now) }
{
    let mut lengths = Lengths::none();
    for effect in records {
        let Some(sum) = lengths.plus(record_lengths(alloc, effect)?) else {
            return Err(NoMemory);
        };
        lengths = sum;
    }
    Ok(lengths)
}

/// How long the record is.
fn record_lengths(alloc: Global, effect: &Effect) -> Result<Lengths, NoMemory>
    requires record { IsTrue (is_record effect.now) }
    ensures value { IfOk result (HasLengths effect.now) }
{
    let mut bytes = Vec::new(alloc);
    write_effect(alloc, effect, &mut bytes)?;
    let waiting = bytes.len();
    Ok(Lengths {
        waiting,
        logged: logged_len(effect, waiting),
    })
}

/// How many bytes a log has the record in that is so long while it waits.
fn logged_len(effect: &Effect, waiting: usize) -> usize
    requires waiting { waiting ≡ length (spelled effect.now) }
    ensures value { result ≡ length (spelled_record (recorded_at no_spot effect.now)) }
{
    match effect {
        Effect::PutHere {
            subject,
            headers,
            payload,
            ..
        } => waiting - subject.len() - headers.len() - payload.len(),
        _ => waiting,
    }
}
