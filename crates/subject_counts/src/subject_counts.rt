//! Which sequences each subject has.

ghost use Rattle.std.specs.Prelude.{◌≡◌, [], find, nat_le, IfOk, OnOk, OnErr};
ghost use Rattle.stream_view.specs.Counting.{counts_of};
ghost use Rattle.subject_counts.specs.Sequences.{counts_matching, seqs_of, AddsSeq, AreDistinct, DropsSeq, IsAbove, KeepsSeqs};

use crate::matching::counts_matching;
use crate::sequence_set::{counts_in, first_from};
use crate::subject_map::{SubjectMap, put_seq, take_seq};
use js_base::{Blob, NoMemory};
use std::alloc::Global;
use std::collections::BTreeMap;
use std::marker::Model;
use stream_view::Counts;

/// The sequences of each subject, which ascend. Each call takes steps by the logarithm of what there is, and `matching` some more for each subject
/// that it looks at.
#[derive(Drop)]
pub struct SubjectCounts {
    alloc: Global,
    subjects: SubjectMap,
}

impl Model for SubjectCounts {
    ghost use Rattle.subject_counts.specs.Sequences.{Subjects};
    ghost use Rattle.subject_counts.specs.SubjectMaps.{shown, IsFilled};

    ghost Value = { Subjects };

    ghost view = { λ counts. shown counts.subjects };

    ghost invariant = { λ counts. IsFilled counts.subjects };
}

impl SubjectCounts {
    /// No subject has a sequence. It takes no memory.
    pub fn new(alloc: Global) -> SubjectCounts
        ensures empty { result ≡ [] }
    {
        SubjectCounts {
            alloc,
            subjects: BTreeMap::new(alloc),
        }
    }

    /// Gives a subject a sequence above those that it has. An `Err` gives it none.
    pub fn add(&mut self, subject: &Blob, seq: u64) -> Result<(), NoMemory>
        requires above { IsAbove seq (seqs_of self.old subject.now) }
        ensures ok { OnOk result (AddsSeq self.old self.new subject.now seq) }
        ensures err { OnErr result (KeepsSeqs self.old self.new) }
    {
        put_seq(&mut self.subjects, self.alloc, subject.as_slice(), seq)
    }

    /// Takes a sequence from a subject, if it has it. It takes no memory.
    pub fn remove(&mut self, subject: &[u8], seq: u64)
        ensures dropped { DropsSeq self.old self.new subject.now seq }
    {
        take_seq(&mut self.subjects, subject, seq);
    }

    /// How many sequences a subject has, and the first and the last of them. `None` if it has none.
    pub fn of(&self, subject: &[u8]) -> Option<Counts>
        ensures value { result ≡ counts_of (seqs_of self.now subject.now) }
    {
        counts_in(self.subjects.get(subject)?)
    }

    /// The least sequence of a subject that is at least this one.
    pub fn at_or_after(&self, subject: &[u8], seq: u64) -> Option<u64>
        ensures value { result ≡ find (λ n. nat_le seq n) (seqs_of self.now subject.now) }
    {
        first_from(self.subjects.get(subject)?, seq)
    }

    /// How many sequences each subject has that the pattern matches, and the first and the last of them. Each subject is counted once. Only those
    /// are looked at that begin with what the pattern has before its first wildcard.
    pub fn matching(&self, pattern: &[u8]) -> Result<Vec<Counts>, NoMemory>
        ensures value { IfOk result (λ found. found.items ≡ counts_matching pattern.now self.now) }
        ensures distinct { OnOk result (AreDistinct self.now) }
    {
        counts_matching(&self.subjects, self.alloc, pattern)
    }
}
