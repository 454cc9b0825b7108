//! Lists behind their count.

ghost use Rattle.std.specs.Prelude.{◌≡◌, ◌<◌, ◌^◌, ◌++◌, true, length, Bool, IsTrue, OnOk};
ghost use Rattle.std.specs.Int.{w32, to_be_bytes};
ghost use Rattle.std.specs.List.{flat_map, list_all};
ghost use Rattle.js_base.specs.Bytes.{Bytes};
ghost use Rattle.op_records.specs.Allowed.{is_list};
ghost use Rattle.op_records.specs.Answers.{IsBehind, IsWithin, Reads};
ghost use Rattle.op_records.specs.Fields.{list_field};
ghost use Rattle.op_records.specs.Spelling.{spelled_list};
ghost use Rattle.op_records.specs.Steps.{Reader as FieldReader};

use js_base::{List, NoMemory, put_u32};
use op_records::{Reader, RecordFault};
use std::alloc::Global;

/// What stands in a list of a snapshot.
pub(crate) trait Entry {
    /// How it is read.
    ghost field: { FieldReader Self };

    /// How it is spelled.
    ghost spelling: { Self → Bytes };

    /// Whether it can be.
    ghost may: { Self → Bool };

    /// Reads one.
    fn read(reader: &mut Reader<'_>) -> Result<Self, RecordFault>
        requires within { IsWithin reader.old }
        ensures behind { IsBehind reader.old reader.new }
        ensures reading { Reads result reader.new (field reader.old.bytes.now reader.old.at) };

    /// Adds it at the end. An `Err` leaves some of it behind what was there.
    fn put(&self, alloc: Global, into: &mut Vec<u8>) -> Result<(), NoMemory>
        requires allowed { IsTrue (may self.now) }
        ensures ok { OnOk result (into.new.items ≡ into.old.items ++ spelling self.now) };
}

/// Reads entries behind their count.
#[tactic(auto, unfolding(op_records::specs::Fields::list_field))]
pub(crate) fn read_list<T: Entry + Drop>(reader: &mut Reader<'_>) -> Result<List<T>, RecordFault>
    requires within { IsWithin reader.old }
    ensures behind { IsBehind reader.old reader.new }
    ensures reading { Reads result reader.new (list_field T.field reader.old.bytes.now reader.old.at) }
{
    let count = reader.word()?;
    let mut entries = List::new(reader.alloc);
    for _ in 0..count {
        let entry = T::read(reader)?;
        entries.push(entry)?;
    }
    Ok(entries)
}

/// Adds a count, which four bytes can tell.
pub(crate) fn put_count(into: &mut Vec<u8>, count: usize) -> Result<(), NoMemory>
    requires few { count < 2 ^ 32 }
    ensures ok { OnOk result (into.new.items ≡ into.old.items ++ to_be_bytes w32 count) }
{
    put_u32(into, count as u32)
}

/// Adds each of the entries.
fn put_each<T: Entry>(alloc: Global, entries: &[T], into: &mut Vec<u8>) -> Result<(), NoMemory>
    requires allowed { list_all T.may entries.now ≡ true }
    ensures ok { OnOk result (into.new.items ≡ into.old.items ++ flat_map T.spelling entries.now) }
{
    for entry in entries {
        entry.put(alloc, into)?;
    }
    Ok(())
}

/// Adds entries behind their count. An `Err` leaves some of them behind what was there.
pub(crate) fn put_list<T: Entry>(
    alloc: Global,
    entries: &[T],
    into: &mut Vec<u8>,
) -> Result<(), NoMemory>
    requires allowed { IsTrue (is_list T.may entries.now) }
    ensures ok { OnOk result (into.new.items ≡ into.old.items ++ spelled_list T.spelling entries.now) }
{
    put_count(into, entries.len())?;
    put_each(alloc, entries, into)
}
