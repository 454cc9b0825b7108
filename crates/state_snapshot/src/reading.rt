//! Snapshots as they are read.

ghost use Rattle.std.specs.Prelude.{IfOk};
ghost use Rattle.op_records.specs.Answers.{IsBehind, IsWithin, Reads};
ghost use Rattle.state_snapshot.specs.Answers.{ReadsSnapshot};
ghost use Rattle.state_snapshot.specs.Reading.{writing_field, body_field, vacant_snapshot, live_snapshot, snapshot_record};

use crate::entry::read_list;
use crate::snapshot::{Snapshot, SnapshotBody, StoredMessage};
use block_table::Block;
use js_model::{Consumer, Id};
use op_records::{Reader, RecordFault};
use std::alloc::Global;

/// The block being written, if there is one.
#[tactic(auto, unfolding(crate::specs::Reading::writing_field))]
fn writing(reader: &mut Reader<'_>) -> Result<Option<Block>, RecordFault>
    requires within { IsWithin reader.old }
    ensures behind { IsBehind reader.old reader.new }
    ensures reading { Reads result reader.new (writing_field reader.old.bytes.now reader.old.at) }
{
    let begin = reader.at;
    let blocks = read_list::<Block>(reader)?;
    match blocks.as_slice() {
        [] => Ok(None),
        [one] => Ok(Some(*one)),
        _ => Err(RecordFault::BadField(begin)),
    }
}

#[tactic(auto, unfolding(crate::specs::Reading::body_field))]
fn body(reader: &mut Reader<'_>) -> Result<SnapshotBody, RecordFault>
    requires within { IsWithin reader.old }
    ensures behind { IsBehind reader.old reader.new }
    ensures reading { Reads result reader.new (body_field reader.old.bytes.now reader.old.at) }
{
    let made = reader.moment()?;
    let moment = reader.moment()?;
    let last = reader.number()?;
    let config = reader.stream_config()?;
    let messages = read_list::<StoredMessage>(reader)?;
    let older = read_list::<Block>(reader)?;
    let writing = writing(reader)?;
    let ids = read_list::<Id>(reader)?;
    let consumers = read_list::<Consumer>(reader)?;
    Ok(SnapshotBody {
        made,
        moment,
        last,
        config,
        messages,
        older,
        writing,
        ids,
        consumers,
    })
}

/// The snapshot of a place without a stream.
fn vacant(reader: &mut Reader<'_>) -> Result<Snapshot, RecordFault>
    requires within { IsWithin reader.old }
    ensures behind { IsBehind reader.old reader.new }
    ensures reading { Reads result reader.new (vacant_snapshot reader.old.bytes.now reader.old.at) }
{
    let incarnation = reader.number()?;
    Ok(Snapshot {
        incarnation,
        body: None,
    })
}

/// The snapshot of a place with a stream.
fn live(reader: &mut Reader<'_>) -> Result<Snapshot, RecordFault>
    requires within { IsWithin reader.old }
    ensures behind { IsBehind reader.old reader.new }
    ensures reading { Reads result reader.new (live_snapshot reader.old.bytes.now reader.old.at) }
{
    let incarnation = reader.number()?;
    let body = body(reader)?;
    Ok(Snapshot {
        incarnation,
        body: Some(body),
    })
}

/// The snapshot at the reader's place.
#[tactic(auto, unfolding(crate::specs::Reading::snapshot_record))]
fn snapshot(reader: &mut Reader<'_>) -> Result<Snapshot, RecordFault>
    requires within { IsWithin reader.old }
    ensures behind { IsBehind reader.old reader.new }
    ensures reading { Reads result reader.new (snapshot_record reader.old.bytes.now reader.old.at) }
{
    let begin = reader.at;
    match reader.byte()? {
        32 => vacant(reader),
        33 => live(reader),
        4 => Err(RecordFault::BadKind(begin)),
        1..=14 => Err(RecordFault::BadField(begin)),
        _ => Err(RecordFault::BadKind(begin)),
    }
}

/// The snapshot that the bytes are. It takes memory for what it gives.
///
/// `Cut` tells the first field that does not end within the bytes, and `BadField` the first that holds what it may not hold: a number of 2^62 or more (but for
/// a cursor, which may be 2^62), no name, a text that is no configuration's, a name that is not the one of its configuration, a count of more than one block
/// being written; and the place behind the snapshot, if anything stands there. At 0, `BadField` tells a record that stands in later batches alone, and
/// `BadKind` one of no kind.
#[tactic(auto, unfolding(crate::specs::Reading::snapshot_field))]
pub fn read_snapshot(alloc: Global, bytes: &[u8]) -> Result<Snapshot, RecordFault>
    ensures reading { ReadsSnapshot result bytes.now }
{
    let mut reader = Reader {
        alloc,
        bytes,
        at: 0,
    };
    let found = snapshot(&mut reader)?;
    if reader.at == bytes.len() {
        Ok(found)
    } else {
        Err(RecordFault::BadField(reader.at))
    }
}
