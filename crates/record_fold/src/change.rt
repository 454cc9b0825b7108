//! Changes of one consumer.

use js_base::Moment;
use js_model::Pending;

/// What a record changes of a consumer that is there.
#[derive(Clone, Copy, Debug)]
pub(crate) enum Change {
    /// A message was sent under this consumer sequence, which has to be the next.
    Deliver { entry: Pending, dseq: u64 },
    /// The deliveries of a range of sequences ended, and those that were given up.
    End { low: u64, high: u64 },
    /// A delivery that waits may be made again at another moment.
    Due { seq: u64, due: Moment },
    /// What was delivered as often as it may be and is due by a moment is given up.
    GiveUp { moment: Moment },
}
