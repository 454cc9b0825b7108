//! Where a new consumer begins.

ghost use Rattle.std.specs.Prelude.{IfOk};
ghost use Rattle.consumer_start.specs.Starts.{ArePicksAt, IsStartOf};

use crate::cursor::cursor_at;
use crate::picks::last_per_subject;
use js_base::{List, NoMemory};
use js_model::{ConsumerConfig, DeliverPolicy};
use std::alloc::Global;
use stream_view::View;

/// Where a new consumer begins.
#[derive(Drop)]
pub struct Start {
    /// The sequences below the cursor that are to be delivered, ascending.
    pub picks: List<u64>,
    /// The sequence from which on all messages are to be delivered that the filter matches.
    pub cursor: u64,
}

/// Where a consumer with this configuration begins, by JetStream's deliver policies. `None` exactly if more than 65,536 sequences would be picked out.
pub fn start_of<W: View>(
    alloc: Global,
    stream: &W,
    config: &ConsumerConfig,
) -> Result<Option<Start>, NoMemory>
    ensures start { IfOk result (λ start. IsStartOf (W.stream stream.now) config.now start) }
{
    let cursor = cursor_at(stream, config);
    match picks_at(alloc, stream, config)? {
        Some(picks) => Ok(Some(Start { picks, cursor })),
        None => Ok(None),
    }
}

/// The sequences that are picked out. `None` exactly if they are more than 65,536.
fn picks_at<W: View>(
    alloc: Global,
    stream: &W,
    config: &ConsumerConfig,
) -> Result<Option<List<u64>>, NoMemory>
    ensures picks { IfOk result (λ picks. ArePicksAt (W.stream stream.now) config.now picks) }
{
    match config.deliver_policy {
        DeliverPolicy::LastPerSubject => last_per_subject(
            alloc,
            stream,
            config.filter_subject.as_slice(),
        ),
        DeliverPolicy::All
        | DeliverPolicy::Last
        | DeliverPolicy::New
        | DeliverPolicy::ByStartSequence(_)
        | DeliverPolicy::ByStartTime(_) => Ok(Some(List::new(alloc))),
    }
}
