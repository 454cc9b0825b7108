//! What is counted of the messages of one subject.

/// How many sequences there are, 1 or more, and the first and the last of them.
#[derive(Drop)]
pub struct Counts {
    pub count: u64,
    pub first: u64,
    pub last: u64,
}
