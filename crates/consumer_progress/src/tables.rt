//! The tables in which a consumer's sequences stand.

ghost use Rattle.std.specs.Prelude.{◌≡◌, ◌+◌, ◌<◌, ◌^◌, ◌==◌, filter, find, length, nat_le, not, IfOk, OnOk, OnErr};
ghost use Rattle.js_base.specs.Bytes.{has};
ghost use Rattle.js_model.specs.Lists.{Ascends};
ghost use Rattle.consumer_progress.specs.Progresses.{first_of, seqs_of};
ghost use Rattle.consumer_progress.specs.Sending.{count_in, pending_after};
ghost use Rattle.consumer_progress.specs.Ending.{lesser};

use js_base::{Moment, NoMemory};
use js_model::Pending;
use pending_table::PendingTable;
use std::alloc::Global;

/// A table of these sequences. Its counts and due moments say nothing.
pub(crate) fn table_of(alloc: Global, seqs: &[u64]) -> Result<PendingTable, NoMemory>
    requires ascend { Ascends 0 seqs.now }
    requires few { length seqs.now < 2 ^ 32 }
    ensures value { IfOk result (λ table. seqs_of table ≡ seqs.now) }
{
    let due = Moment::of(0).unwrap();
    let mut table = PendingTable::new(alloc);
    for seq in seqs {
        table.put(*seq, 0, due)?;
    }
    Ok(table)
}

/// A table of these entries.
pub(crate) fn table_with(alloc: Global, entries: &[Pending]) -> Result<PendingTable, NoMemory>
    requires ascend { Ascends 0 (seqs_of entries.now) }
    requires few { length entries.now < 2 ^ 32 }
    ensures value { IfOk result (λ table. table ≡ entries.now) }
{
    let mut table = PendingTable::new(alloc);
    for entry in entries {
        table.put(entry.seq, entry.count, entry.due)?;
    }
    Ok(table)
}

/// Whether a table has the sequence.
pub(crate) fn has_seq(table: &PendingTable, seq: u64) -> bool
    ensures value { result ≡ has (seqs_of table.now) seq }
{
    table.get(seq).is_some()
}

/// The least sequence of a table.
pub(crate) fn first_seq(table: &PendingTable) -> Option<u64>
    ensures value { result ≡ first_of (seqs_of table.now) }
{
    table.first()
}

/// The least sequence of a table that is at least this one.
pub(crate) fn seq_from(table: &PendingTable, seq: u64) -> Option<u64>
    ensures value { result ≡ find (nat_le seq) (seqs_of table.now) }
{
    let entry = table.at_or_after(seq)?;
    Some(entry.seq)
}

/// The lesser of two sequences, as far as they are there.
pub(crate) fn lesser(one: Option<u64>, other: Option<u64>) -> Option<u64>
    ensures value { result ≡ lesser one other }
{
    match (one, other) {
        (Some(one), Some(other)) => Some(one.min(other)),
        (Some(one), None) => Some(one),
        (None, other) => other,
    }
}

/// Takes the sequence out of a table, and tells whether it was there.
pub(crate) fn drop_seq(table: &mut PendingTable, seq: u64) -> bool
    ensures was { result ≡ has (seqs_of table.old) seq }
    ensures left { table.new ≡ filter (λ e. not (e.seq == seq)) table.old }
    ensures seqs { seqs_of table.new ≡ filter (λ n. not (n == seq)) (seqs_of table.old) }
{
    table.ack(seq)
}

/// How often the sequence was delivered, 0 if it does not wait.
pub(crate) fn count_in(table: &PendingTable, seq: u64) -> u64
    ensures value { result ≡ count_in table.now seq }
{
    match table.get(seq) {
        Some((count, _)) => count,
        None => 0,
    }
}

/// Notes a delivery that waits until the moment, or one that does not wait. An `Err` changes nothing; it comes if memory runs out, or if with one
/// entry more there would be 2^32 here and elsewhere.
pub(crate) fn put_delivery(
    table: &mut PendingTable,
    elsewhere: u64,
    seq: u64,
    due: Option<Moment>,
) -> Result<(), NoMemory>
    requires count { count_in table.old seq + 1 < 2 ^ 64 }
    requires few { length table.old + elsewhere < 2 ^ 32 }
    ensures ok { OnOk result (table.new ≡ pending_after seq due table.old) }
    ensures few { OnOk result (length table.new + elsewhere < 2 ^ 32) }
    ensures err { OnErr result (table.new ≡ table.old) }
{
    let Some(due) = due else {
        return Ok(());
    };
    if table.len() + elsewhere + 1 >= 1 << 32 {
        return Err(NoMemory);
    }
    let count = count_in(table, seq) + 1;
    table.put(seq, count, due)?;
    Ok(())
}
