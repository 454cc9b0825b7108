//! The sequences under each subject.

ghost use Rattle.std.specs.Prelude.{◌≡◌, [], None, OnOk, OnErr};
ghost use Rattle.std.specs.Bool.{OnFalse, OnTrue};
ghost use Rattle.subject_counts.specs.Sequences.{seqs_of, AddsSeq, DropsSeq, IsAbove, KeepsSeqs};
ghost use Rattle.subject_counts.specs.SubjectMaps.{IsFilled, IsFilledBut, set_at, shown};

use crate::sequence_set::{drop_seq, push_seq};
use js_base::NoMemory;
use std::alloc::Global;
use std::collections::{BTreeMap, BTreeSet};

/// The sequences under each subject that has some.
pub(crate) type SubjectMap = BTreeMap<Vec<u8>, BTreeSet<u64>>;

/// Puts a sequence under a subject, above those that are there. An `Err` leaves the sequences as they were.
pub(crate) fn put_seq(
    subjects: &mut SubjectMap,
    alloc: Global,
    subject: &[u8],
    seq: u64,
) -> Result<(), NoMemory>
    requires filled { IsFilled subjects.old }
    requires above { IsAbove seq (seqs_of (shown subjects.old) subject.now) }
    ensures ok { OnOk result (AddsSeq (shown subjects.old) (shown subjects.new) subject.now seq) }
    ensures err { OnErr result (KeepsSeqs (shown subjects.old) (shown subjects.new)) }
    ensures filled { IsFilled subjects.new }
{
    match subjects.get_mut(subject) {
        Some(set) => push_seq(set, seq),
        None => put_first(subjects, alloc, subject, seq),
    }
}

/// Puts the first sequence under a subject.
fn put_first(
    subjects: &mut SubjectMap,
    alloc: Global,
    subject: &[u8],
    seq: u64,
) -> Result<(), NoMemory>
    requires filled { IsFilled subjects.old }
    requires absent { set_at subjects.old subject.now ≡ None }
    ensures ok { OnOk result (AddsSeq (shown subjects.old) (shown subjects.new) subject.now seq) }
    ensures err { OnErr result (KeepsSeqs (shown subjects.old) (shown subjects.new)) }
    ensures filled { IsFilled subjects.new }
{
    let mut set = BTreeSet::new(alloc);
    push_seq(&mut set, seq)?;
    let mut key = Vec::new(alloc);
    key.extend_from_slice(subject)?;
    subjects.insert(key, set)?;
    Ok(())
}

/// Takes a sequence from under a subject, which goes with its last one. It takes no memory.
pub(crate) fn take_seq(subjects: &mut SubjectMap, subject: &[u8], seq: u64)
    requires filled { IsFilled subjects.old }
    ensures dropped { DropsSeq (shown subjects.old) (shown subjects.new) subject.now seq }
    ensures filled { IsFilled subjects.new }
{
    if drop_under(subjects, subject, seq) {
        subjects.remove(subject);
    }
}

/// Drops a sequence from under a subject, and tells whether the subject is there with none left.
fn drop_under(subjects: &mut SubjectMap, subject: &[u8], seq: u64) -> bool
    requires filled { IsFilled subjects.old }
    ensures dropped { DropsSeq (shown subjects.old) (shown subjects.new) subject.now seq }
    ensures bare { OnTrue result (seqs_of (shown subjects.new) subject.now ≡ []) }
    ensures others { IsFilledBut subjects.new subject.now }
    ensures filled { OnFalse result (IsFilled subjects.new) }
{
    match subjects.get_mut(subject) {
        Some(set) => drop_seq(set, seq),
        None => false,
    }
}
