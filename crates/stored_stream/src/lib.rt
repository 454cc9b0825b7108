//! A stream without its consumers: what is stored, which message ids are known, and what a publish comes to.
#![tactic(auto)]

mod ageing;
mod crowding;
mod heads;
mod indexed;
mod lasting;
mod later;
mod purging;
mod restoring;
mod selector;
mod stored;
mod verdicts;

pub use ageing::first_old;
pub use crowding::first_crowded;
pub use later::LaterStream;
pub use purging::purge_seqs;
pub use selector::Selector;
pub use stored::StoredStream;
pub use verdicts::verdict;
