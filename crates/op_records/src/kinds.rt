//! The records of each kind as they are read.

ghost use Rattle.std.specs.Prelude.{◌<◌, IfOk};
ghost use Rattle.op_records.specs.Answers.{IsBehind, IsWithin, Reads};
ghost use Rattle.op_records.specs.Reading as kinds;

use crate::fault::RecordFault;
use crate::reader::Reader;
use crate::record::Record;
use effects::Effect;

#[tactic(auto, unfolding(crate::specs::Reading::make_stream))]
fn make_stream(reader: &mut Reader<'_>) -> Result<Effect, RecordFault>
    requires within { IsWithin reader.old }
    ensures behind { IsBehind reader.old reader.new }
    ensures reading { Reads result reader.new (kinds.make_stream reader.old.bytes.now reader.old.at) }
{
    let incarnation = reader.number()?;
    let made = reader.moment()?;
    let config = reader.stream_config()?;
    Ok(Effect::MakeStream {
        incarnation,
        made,
        config,
    })
}

#[tactic(auto, unfolding(crate::specs::Reading::change_stream))]
fn change_stream(reader: &mut Reader<'_>) -> Result<Effect, RecordFault>
    requires within { IsWithin reader.old }
    ensures behind { IsBehind reader.old reader.new }
    ensures reading { Reads result reader.new (kinds.change_stream reader.old.bytes.now reader.old.at) }
{
    let config = reader.stream_config()?;
    Ok(Effect::ChangeStream { config })
}

#[tactic(auto, unfolding(crate::specs::Reading::skip))]
fn skip(reader: &mut Reader<'_>) -> Result<Effect, RecordFault>
    requires within { IsWithin reader.old }
    ensures behind { IsBehind reader.old reader.new }
    ensures reading { Reads result reader.new (kinds.skip reader.old.bytes.now reader.old.at) }
{
    let seq = reader.number()?;
    let at = reader.moment()?;
    let id = reader.text()?;
    Ok(Effect::Skip { seq, at, id })
}

#[tactic(auto, unfolding(crate::specs::Reading::remove))]
fn remove(reader: &mut Reader<'_>) -> Result<Effect, RecordFault>
    requires within { IsWithin reader.old }
    ensures behind { IsBehind reader.old reader.new }
    ensures reading { Reads result reader.new (kinds.remove reader.old.bytes.now reader.old.at) }
{
    let (low, high) = reader.range()?;
    Ok(Effect::Remove { low, high })
}

#[tactic(auto, unfolding(crate::specs::Reading::make_consumer))]
fn make_consumer(reader: &mut Reader<'_>) -> Result<Effect, RecordFault>
    requires within { IsWithin reader.old }
    ensures behind { IsBehind reader.old reader.new }
    ensures reading { Reads result reader.new (kinds.make_consumer reader.old.bytes.now reader.old.at) }
{
    let begin = reader.at;
    let name = reader.name()?;
    let made = reader.moment()?;
    let config = reader.consumer_config()?;
    if config.name.as_slice() != name.as_slice() {
        return Err(RecordFault::BadField(begin));
    }
    let cursor = reader.cursor()?;
    let picks = reader.numbers()?;
    Ok(Effect::MakeConsumer {
        name,
        made,
        config,
        cursor,
        picks,
    })
}

#[tactic(auto, unfolding(crate::specs::Reading::drop_consumer))]
fn drop_consumer(reader: &mut Reader<'_>) -> Result<Effect, RecordFault>
    requires within { IsWithin reader.old }
    ensures behind { IsBehind reader.old reader.new }
    ensures reading { Reads result reader.new (kinds.drop_consumer reader.old.bytes.now reader.old.at) }
{
    let name = reader.name()?;
    Ok(Effect::DropConsumer { name })
}

#[tactic(auto, unfolding(crate::specs::Reading::deliver))]
fn deliver(reader: &mut Reader<'_>) -> Result<Effect, RecordFault>
    requires within { IsWithin reader.old }
    ensures behind { IsBehind reader.old reader.new }
    ensures reading { Reads result reader.new (kinds.deliver reader.old.bytes.now reader.old.at) }
{
    let name = reader.name()?;
    let seq = reader.number()?;
    let count = reader.number()?;
    let due = reader.moment()?;
    let dseq = reader.number()?;
    Ok(Effect::Deliver {
        name,
        seq,
        count,
        due,
        dseq,
    })
}

#[tactic(auto, unfolding(crate::specs::Reading::acked))]
fn acked(reader: &mut Reader<'_>) -> Result<Effect, RecordFault>
    requires within { IsWithin reader.old }
    ensures behind { IsBehind reader.old reader.new }
    ensures reading { Reads result reader.new (kinds.acked reader.old.bytes.now reader.old.at) }
{
    let name = reader.name()?;
    let (low, high) = reader.range()?;
    Ok(Effect::Acked { name, low, high })
}

#[tactic(auto, unfolding(crate::specs::Reading::due))]
fn due(reader: &mut Reader<'_>) -> Result<Effect, RecordFault>
    requires within { IsWithin reader.old }
    ensures behind { IsBehind reader.old reader.new }
    ensures reading { Reads result reader.new (kinds.due reader.old.bytes.now reader.old.at) }
{
    let name = reader.name()?;
    let seq = reader.number()?;
    let due = reader.moment()?;
    Ok(Effect::Due { name, seq, due })
}

#[tactic(auto, unfolding(crate::specs::Reading::given_up))]
fn given_up(reader: &mut Reader<'_>) -> Result<Effect, RecordFault>
    requires within { IsWithin reader.old }
    ensures behind { IsBehind reader.old reader.new }
    ensures reading { Reads result reader.new (kinds.given_up reader.old.bytes.now reader.old.at) }
{
    let name = reader.name()?;
    let moment = reader.moment()?;
    Ok(Effect::GivenUp { name, moment })
}

#[tactic(auto, unfolding(crate::specs::Reading::now))]
fn now(reader: &mut Reader<'_>) -> Result<Effect, RecordFault>
    requires within { IsWithin reader.old }
    ensures behind { IsBehind reader.old reader.new }
    ensures reading { Reads result reader.new (kinds.now reader.old.bytes.now reader.old.at) }
{
    let moment = reader.moment()?;
    Ok(Effect::Now { moment })
}

/// Where a message was stored.
#[tactic(auto, unfolding(crate::specs::Reading::put))]
fn put(reader: &mut Reader<'_>) -> Result<Record, RecordFault>
    requires within { IsWithin reader.old }
    ensures behind { IsBehind reader.old reader.new }
    ensures reading { Reads result reader.new (kinds.put reader.old.bytes.now reader.old.at) }
{
    let seq = reader.number()?;
    let at = reader.moment()?;
    let id = reader.text()?;
    let spot = reader.spot()?;
    Ok(Record::Put { seq, at, id, spot })
}

/// The record at the reader's place.
#[tactic(auto, unfolding(crate::specs::Reading::record_at))]
pub(crate) fn record(reader: &mut Reader<'_>) -> Result<Record, RecordFault>
    requires within { IsWithin reader.old }
    ensures behind { IsBehind reader.old reader.new }
    ensures reading { Reads result reader.new (kinds.record_at reader.old.bytes.now reader.old.at) }
    ensures further { IfOk result (λ found. reader.old.at < reader.new.at) }
{
    let begin = reader.at;
    match reader.byte()? {
        1 => Ok(Record::Change(make_stream(reader)?)),
        2 => Ok(Record::Change(change_stream(reader)?)),
        3 => Ok(Record::Change(Effect::DropStream)),
        5 => Ok(Record::Change(skip(reader)?)),
        6 => Ok(Record::Change(remove(reader)?)),
        7 => Ok(Record::Change(make_consumer(reader)?)),
        8 => Ok(Record::Change(drop_consumer(reader)?)),
        9 => Ok(Record::Change(deliver(reader)?)),
        10 => Ok(Record::Change(acked(reader)?)),
        11 => Ok(Record::Change(due(reader)?)),
        12 => Ok(Record::Change(given_up(reader)?)),
        13 => Ok(Record::Change(now(reader)?)),
        14 => put(reader),
        32 | 33 => Err(RecordFault::BadField(begin)),
        _ => Err(RecordFault::BadKind(begin)),
    }
}
