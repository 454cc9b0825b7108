//! The subjects that a pattern matches.

ghost use Rattle.std.specs.Prelude.{◌≡◌, ◌++◌, nat_eq, position, true, IfOk, OnOk};
ghost use Rattle.std.specs.List.{starts_with};
ghost use Rattle.std.specs.Option.{option_to_list};
ghost use Rattle.js_base.specs.Bytes.{Bytes};
ghost use Rattle.js_base.specs.Subjects.{tokens, matches};
ghost use Rattle.stream_view.specs.Counting.{counts_of};
ghost use Rattle.subject_counts.specs.Sequences.{counts_matching, AreDistinct};
ghost use Rattle.subject_counts.specs.SubjectMaps.{shown};
ghost use Rattle.subject_counts.specs.Wildcards.{is_wildcard};

use crate::sequence_set::counts_in;
use crate::subject_map::SubjectMap;
use js_base::NoMemory;
use std::alloc::Global;
use std::collections::BTreeSet;
use stream_view::Counts;
use subject_match::matches;

/// What is counted of each subject that the pattern matches. Only subjects are looked at that begin with what the pattern has before its
/// first wildcard.
pub(crate) fn counts_matching(
    subjects: &SubjectMap,
    alloc: Global,
    pattern: &[u8],
) -> Result<Vec<Counts>, NoMemory>
    ensures value { IfOk result (λ found. found.items ≡ counts_matching pattern.now (shown subjects.now)) }
    ensures distinct { OnOk result (AreDistinct (shown subjects.now)) }
{
    let mut start = Vec::new(alloc);
    start.extend_from_slice(literal_prefix(pattern))?;
    let mut found = Vec::new(alloc);
    let mut left = subjects.range(&start..);
    while let Some((subject, sequences)) = left.next() {
        if !subject.starts_with(start.as_slice()) {
            return Ok(found);
        }
        if matches(pattern, subject.as_slice()) {
            push_counts(&mut found, sequences)?;
        }
    }
    Ok(found)
}

/// What the pattern has before its first wildcard. Each subject that it matches begins so.
fn literal_prefix(pattern: &[u8]) -> &[u8]
    ensures begins { (subject : Bytes) → matches (tokens pattern.now) (tokens subject) ≡ true → starts_with nat_eq subject result.now ≡ true }
{
    match first_wildcard(pattern) {
        Some(at) => &pattern[..at],
        None => pattern,
    }
}

/// The place of the first byte that is a wildcard, if it is a token by itself.
fn first_wildcard(pattern: &[u8]) -> Option<usize>
    ensures value { result ≡ position is_wildcard pattern.now }
{
    pattern
        .iter()
        .position(|byte| *byte == b'*' || *byte == b'>')
}

/// Adds what is counted of these sequences, if there are some.
fn push_counts(found: &mut Vec<Counts>, sequences: &BTreeSet<u64>) -> Result<(), NoMemory>
    ensures ok { OnOk result (found.new.items ≡ found.old.items ++ option_to_list (counts_of sequences.now.keys)) }
{
    if let Some(counts) = counts_in(sequences) {
        found.push(counts)?;
    }
    Ok(())
}
