//! The messages that a filter takes.

ghost use Rattle.std.specs.Prelude.{◌≡◌};
ghost use Rattle.consumer_start.specs.Taking.{next_taken, last_taken};

use consumer_need::passes;
use stream_view::View;

/// The sequence of the first message from a sequence on that the filter matches.
pub fn next_taken<W: View>(stream: &W, filter: &[u8], from: u64) -> Option<u64>
    ensures value { result ≡ next_taken filter.now (W.stream stream.now) from }
{
    let last = stream.last();
    let mut seq = from;
    while seq <= last {
        let head = stream.at_or_after(seq)?;
        if passes(filter, head.subject.as_slice()) {
            return Some(head.seq);
        }
        seq = head.seq + 1;
    }
    None
}

/// The sequence of the last message that the filter matches.
pub(crate) fn last_taken<W: View>(stream: &W, filter: &[u8]) -> Option<u64>
    ensures value { result ≡ last_taken filter.now (W.stream stream.now) }
{
    let mut below = stream.last() + 1;
    while 0 < below {
        let head = stream.at_or_before(below - 1)?;
        if passes(filter, head.subject.as_slice()) {
            return Some(head.seq);
        }
        below = head.seq;
    }
    None
}
