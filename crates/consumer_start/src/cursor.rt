//! The sequence from which on all messages that its filter matches are delivered to a new consumer.

ghost use Rattle.std.specs.Prelude.{◌≡◌, find, nat_le, option_map};
ghost use Rattle.js_model.specs.Streams.{first_seq};
ghost use Rattle.js_model.specs.Start.{cursor_at};
ghost use Rattle.stream_view.specs.Order.{IsInOrder};

use crate::taking::last_taken;
use js_base::Moment;
use js_model::{ConsumerConfig, DeliverPolicy};
use stream_view::View;

/// The first stored sequence, or the next one.
fn first_seq<W: View>(stream: &W) -> u64
    ensures value { result ≡ first_seq (W.stream stream.now) }
{
    match stream.at_or_after(0) {
        Some(head) => head.seq,
        None => stream.last() + 1,
    }
}

/// The sequence of the first message that was stored at the moment or later.
fn first_since<W: View>(stream: &W, at: Moment) -> Option<u64>
    ensures value { result ≡ option_map (λ m. m.seq) (find (λ m. nat_le at m.at) (W.stream stream.now).messages) }
{
    let last = stream.last();
    let mut seq = 0;
    while seq <= last {
        let head = stream.at_or_after(seq)?;
        if at.as_nanos() <= head.at.as_nanos() {
            return Some(head.seq);
        }
        seq = head.seq + 1;
    }
    None
}

/// The sequence from which on a new consumer is delivered all that its filter matches, by JetStream's deliver policies. Where it begins at a moment, or
/// with the last message, it goes through messages.
pub(crate) fn cursor_at<W: View>(stream: &W, config: &ConsumerConfig) -> u64
    ensures value { result ≡ cursor_at config.now.deliver_policy config.now.filter_subject (W.stream stream.now) }
    ensures order { IsInOrder (W.stream stream.now) }
{
    let next = stream.last() + 1;
    match config.deliver_policy {
        DeliverPolicy::All => first_seq(stream),
        DeliverPolicy::Last => last_taken(stream, config.filter_subject.as_slice()).unwrap_or(next),
        DeliverPolicy::New | DeliverPolicy::LastPerSubject => next,
        DeliverPolicy::ByStartSequence(seq) => seq.max(first_seq(stream)).min(next),
        DeliverPolicy::ByStartTime(at) => first_since(stream, at).unwrap_or(next),
    }
}
