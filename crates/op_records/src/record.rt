//! The records of a volume's log.

use effects::Effect;
use js_base::{Blob, Moment, Spot};

/// A record of a volume's log.
#[derive(Drop, Debug)]
pub enum Record {
    /// A message was stored under the next sequence, with its id, which is empty if there is none. It lies at this spot of a block.
    Put {
        seq: u64,
        at: Moment,
        id: Blob,
        spot: Spot,
    },
    /// Any other change. A log has no `PutHere`.
    Change(Effect),
}
