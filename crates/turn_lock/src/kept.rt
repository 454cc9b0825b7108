//! What lies in the slot of a lock.

use crate::noted::Entries;

/// The value, and the entries of the turn that left it there. The step that leaves reads them.
pub struct Kept<S> {
    pub value: S,
    pub entries: Entries,
}
