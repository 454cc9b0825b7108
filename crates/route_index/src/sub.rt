//! A subscription as an index knows it.

use js_base::Blob;

/// A subscription: a number that is its own, and the pattern of the subjects that it wants.
#[derive(Drop, Clone, Debug, PartialEq, Eq)]
pub struct Sub {
    pub id: u64,
    pub pattern: Blob,
}
