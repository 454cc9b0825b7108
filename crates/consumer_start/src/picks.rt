//! The last message of each subject, by JetStream's deliver policy `last_per_subject`.

ghost use Rattle.std.specs.Prelude.{◌≡◌, IfOk};
ghost use Rattle.consumer_start.specs.Picking.{is_pick, ArePicks};

use consumer_need::passes;
use js_base::{List, NoMemory};
use std::alloc::Global;
use stream_view::{Head, View};

/// How many sequences are picked out at most.
const MOST_PICKS: usize = 65_536;

/// Whether the message is the last one of its subject, and the filter matches it.
fn is_pick<W: View>(stream: &W, filter: &[u8], head: &Head<'_>) -> bool
    ensures value { result ≡ is_pick (W.stream stream.now) filter.now head.now.subject head.now.seq }
{
    if !passes(filter, head.subject.as_slice()) {
        return false;
    }
    match stream.of(head.subject.as_slice()) {
        Some(counts) => counts.last == head.seq,
        None => false,
    }
}

/// The last messages of the subjects that the filter matches, ascending. `None` exactly if there are more than 65,536. It goes through the messages.
pub(crate) fn last_per_subject<W: View>(
    alloc: Global,
    stream: &W,
    filter: &[u8],
) -> Result<Option<List<u64>>, NoMemory>
    ensures picks { IfOk result (λ picks. ArePicks (W.stream stream.now) filter.now picks) }
{
    let last = stream.last();
    let mut picks = List::new(alloc);
    let mut seq = 0;
    while seq <= last {
        let Some(head) = stream.at_or_after(seq) else {
            break;
        };
        if is_pick(stream, filter, &head) {
            if picks.len() == MOST_PICKS {
                return Ok(None);
            }
            picks.push(head.seq)?;
        }
        seq = head.seq + 1;
    }
    Ok(Some(picks))
}
