//! The entries of a consumer: what waits for an acknowledgement, and what was given up.

ghost use Rattle.std.specs.Prelude.{◌≡◌, ◌==◌, nat_le, OnOk, map, filter, fold};
ghost use Rattle.std.specs.List.{list_any, position};
ghost use Rattle.js_base.specs.Bytes.{last_of};
ghost use Rattle.js_model.specs.Acknowledge.{moved};
ghost use Rattle.js_model.specs.Advance.{placed};
ghost use Rattle.js_model.specs.Deliver.{with_pending};
ghost use Rattle.effects.specs.Folding.{with_given_up};
ghost use Rattle.record_fold.specs.Entries.{is_spent_by};

use crate::lists::take;
use js_base::{List, Moment, NoMemory};
use js_model::{Consumer, Pending};
use std::alloc::Global;

/// How many sequences a consumer keeps that were given up.
const MOST_GIVEN_UP: usize = 65_536;

/// The place of the first entry that is not before a sequence.
fn entry_place(entries: &[Pending], seq: u64) -> Option<usize>
    ensures value { result ≡ position (λ p. nat_le seq p.seq) entries.now }
{
    entries.iter().position(|entry| seq <= entry.seq)
}

/// Puts an entry at its place in the order of sequences, or in place of the one of its sequence.
pub(crate) fn put_entry(entries: &mut Vec<Pending>, entry: Pending) -> Result<(), NoMemory>
    ensures ok { OnOk result (entries.new.items ≡ with_pending entries.old.items entry) }
{
    let place = entry_place(entries.as_slice(), entry.seq).unwrap_or(entries.len());
    if place < entries.len() && entries[place].seq == entry.seq {
        entries[place] = entry;
        return Ok(());
    }
    entries.insert(place, entry)?;
    Ok(())
}

/// Sets when an entry is due if it has this sequence.
fn move_entry(entry: &mut Pending, seq: u64, due: Moment)
    ensures value { entry.new ≡ moved seq due entry.old }
{
    if entry.seq == seq {
        entry.due = due;
    }
}

/// Sets when the entry of a sequence is due, and tells whether there is one.
pub(crate) fn set_due(entries: &mut [Pending], seq: u64, due: Moment) -> bool
    ensures there { result ≡ list_any (λ p. p.seq == seq) entries.old }
    ensures value { entries.new ≡ map (moved seq due) entries.old }
{
    let is_there = entries.iter().any(|entry| entry.seq == seq);
    for entry in entries.iter_mut() {
        move_entry(entry, seq, due);
    }
    is_there
}

/// The place of the first sequence that is not before another.
fn seq_place(seqs: &[u64], seq: u64) -> Option<usize>
    ensures value { result ≡ position (λ n. nat_le seq n) seqs.now }
{
    seqs.iter().position(|other| seq <= *other)
}

/// Puts a sequence at its place.
fn put_seq(seqs: &mut Vec<u64>, seq: u64) -> Result<(), NoMemory>
    ensures ok { OnOk result (seqs.new.items ≡ placed seqs.old.items seq) }
{
    let place = seq_place(seqs.as_slice(), seq).unwrap_or(seqs.len());
    seqs.insert(place, seq)?;
    Ok(())
}

/// Whether an entry was delivered as often as it may be, and is due by a moment.
fn is_spent(limit: Option<u64>, entry: &Pending, moment: Moment) -> bool
    ensures value { result ≡ is_spent_by moment limit entry.now }
{
    entry.due <= moment && limit == Some(entry.count)
}

/// Puts the sequences of spent entries at their places.
fn put_spent(
    seqs: &mut Vec<u64>,
    entries: &[Pending],
    limit: Option<u64>,
    moment: Moment,
) -> Result<(), NoMemory>
    ensures ok { OnOk result (seqs.new.items ≡ fold placed seqs.old.items (map (λ p. p.seq) (filter (is_spent_by moment limit) entries.now))) }
{
    for entry in entries {
        if is_spent(limit, entry, moment) {
            put_seq(seqs, entry.seq)?;
        }
    }
    Ok(())
}

/// Keeps the last of the sequences, as many as a consumer keeps.
fn keep_last(seqs: &mut Vec<u64>)
    ensures left { seqs.new.items ≡ last_of 65536 seqs.old.items }
{
    let excess = seqs.len().saturating_sub(MOST_GIVEN_UP);
    seqs.drain(..excess);
}

/// Gives up what is spent.
pub(crate) fn give_up(
    alloc: Global,
    consumer: &mut Consumer,
    moment: Moment,
) -> Result<(), NoMemory>
    ensures ok { OnOk result (consumer.new ≡ with_given_up moment consumer.old) }
{
    let limit = consumer.config.max_deliver;
    let mut given_up = take(alloc, &mut consumer.given_up);
    let mut pending = take(alloc, &mut consumer.pending);
    put_spent(&mut given_up, pending.as_slice(), limit, moment)?;
    keep_last(&mut given_up);
    pending.retain(|entry| !is_spent(limit, entry, moment));
    consumer.given_up = List::from_vec(given_up);
    consumer.pending = List::from_vec(pending);
    Ok(())
}
