//! Which sequences each subject of a stream has.
#![tactic(auto)]

mod matching;
mod sequence_set;
mod subject_counts;
mod subject_map;

pub use subject_counts::SubjectCounts;
