//! Records as they are read.

ghost use Rattle.std.specs.Prelude.{◌≤◌, length};
ghost use Rattle.op_records.specs.Answers.{ReadsAt, ReadsRecords};
ghost use Rattle.op_records.specs.Reading.{record_at};

use crate::fault::RecordFault;
use crate::kinds::record;
use crate::reader::Reader;
use crate::record::Record;
use js_base::List;
use std::alloc::Global;

/// The record that begins at a place of the bytes, and the place behind it.
///
/// `Cut` and `BadField` tell the first field that does not end or that holds what it may not hold: a number of 2^62 or more (but for a cursor, which may
/// be 2^62), no name, a text that is no configuration's, a name that is not the one of its configuration, and of a range out of order its first end.
/// `BadKind` tells a record of no kind, and `BadField` one that stands nowhere but where a log begins.
pub fn read_record(alloc: Global, bytes: &[u8], at: usize) -> Result<(Record, usize), RecordFault>
    requires within { at ≤ length bytes.now }
    ensures reading { ReadsAt result (record_at bytes.now at) }
{
    let mut reader = Reader { alloc, bytes, at };
    let found = record(&mut reader)?;
    Ok((found, reader.at))
}

/// The records that the bytes are, one behind the other, or the fault of the first that is wrong, as [`read_record`] tells it.
pub fn read_records(alloc: Global, bytes: &[u8]) -> Result<Vec<Record>, RecordFault>
    ensures reading { ReadsRecords result bytes.now }
{
    let mut reader = Reader {
        alloc,
        bytes,
        at: 0,
    };
    let mut records = List::new(alloc);
    while reader.at < bytes.len() {
        let found = record(&mut reader)?;
        records.push(found)?;
    }
    Ok(records.into_vec())
}
