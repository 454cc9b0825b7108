//! The tables in which a consumer's sequences stand.

ghost use Rattle.std.specs.Prelude.{◌≡◌, [], ◌+◌, ◌++◌, ◌<◌, ◌==◌, ◌^◌, filter, if◌then◌else◌, length, not, IfOk, None, OnErr, OnOk};
ghost use Rattle.std.specs.Option.{option_to_list};
ghost use Rattle.js_base.specs.Bytes.{has};
ghost use Rattle.js_model.specs.Deliver.{with_pending};
ghost use Rattle.js_model.specs.Lists.{Ascends};
ghost use Rattle.effects.specs.Ranges.{is_within};
ghost use Rattle.consumer_progress.specs.Progresses.{seqs_of};

use js_base::{Moment, NoMemory};
use js_model::Pending;
use pending_table::PendingTable;
use std::alloc::Global;

/// A table of these sequences. Its counts and due moments say nothing.
pub(crate) fn table_of(alloc: Global, seqs: &[u64]) -> Result<PendingTable, NoMemory>
    requires ascend { Ascends 0 seqs.now }
    requires few { length seqs.now < 2 ^ 32 }
    ensures value { IfOk result (λ table. seqs_of table ≡ seqs.now) }
{
    let due = Moment::of(0).unwrap();
    let mut table = PendingTable::new(alloc);
    for seq in seqs {
        table.put(*seq, 0, due)?;
    }
    Ok(table)
}

/// A table of these entries.
pub(crate) fn table_with(alloc: Global, entries: &[Pending]) -> Result<PendingTable, NoMemory>
    requires ascend { Ascends 0 (seqs_of entries.now) }
    requires few { length entries.now < 2 ^ 32 }
    ensures value { IfOk result (λ table. table ≡ entries.now) }
{
    let mut table = PendingTable::new(alloc);
    for entry in entries {
        table.put(entry.seq, entry.count, entry.due)?;
    }
    Ok(table)
}

/// Whether a table has the sequence.
pub(crate) fn has_seq(table: &PendingTable, seq: u64) -> bool
    ensures value { result ≡ has (seqs_of table.now) seq }
{
    table.get(seq).is_some()
}

/// Takes the sequence out of a table.
pub(crate) fn drop_seq(table: &mut PendingTable, seq: u64)
    ensures seqs { seqs_of table.new ≡ filter (λ n. not (n == seq)) (seqs_of table.old) }
{
    table.ack(seq);
}

/// Takes the sequences from the one up to the other out of a table. Its cost grows with their number.
pub(crate) fn drop_range(table: &mut PendingTable, low: u64, high: u64)
    ensures left { table.new ≡ filter (λ e. not (is_within low high e.seq)) table.old }
    ensures seqs { seqs_of table.new ≡ filter (λ n. not (is_within low high n)) (seqs_of table.old) }
{
    table.forget(low, high);
}

/// Sets the entry of a delivery if it waits for an acknowledgement. An `Err` changes nothing.
pub(crate) fn put_waiting(
    table: &mut PendingTable,
    entry: Pending,
    is_unacknowledged: bool,
) -> Result<(), NoMemory>
    requires room { length table.old + 1 < 2 ^ 32 }
    ensures ok { OnOk result (table.new ≡ (if is_unacknowledged then table.old else with_pending table.old entry)) }
    ensures err { OnErr result (table.new ≡ table.old) }
{
    if is_unacknowledged {
        return Ok(());
    }
    table.put(entry.seq, entry.count, entry.due)
}

/// Takes the first entry out.
pub(crate) fn pop_first(table: &mut PendingTable) -> Option<Pending>
    requires ascend { Ascends 0 (seqs_of table.old) }
    ensures first { table.old ≡ option_to_list result ++ table.new }
    ensures none { result ≡ None → table.old ≡ [] }
    ensures ascend { Ascends 0 (seqs_of table.new) }
{
    let entry = table.at_or_after(0)?;
    table.ack(entry.seq);
    Some(entry)
}
