//! What the records of a volume's log make of what the volume held before, record by record.
#![tactic(auto)]

mod change;
mod consumers;
mod durables;
mod entries;
mod fault;
mod lists;
mod records;
mod streams;

pub use fault::FoldFault;
pub use records::fold;
