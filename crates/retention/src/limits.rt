//! What the limits of a stream drop next.

ghost use Rattle.std.specs.Prelude.{◌≡◌, option_map, if◌then◌else◌, None};
ghost use Rattle.js_model.specs.Streams.{over_limit};
ghost use Rattle.js_model.specs.Trim.{max_messages};
ghost use Rattle.stream_view.specs.Counting.{seqs_on};
ghost use Rattle.retention.specs.Over.{is_over, is_over_on, next_over, over_stream, over_subject, IsOverOnlyOn};
ghost use Rattle.retention.specs.Firsts.{first_number};

use stream_view::View;

/// How many messages any stream has at most.
const MOST_MESSAGES: u64 = 1 << 24;

/// The sequence of the message that the stream's limits drop next, and `None` exactly if they hold. It goes through the messages if there is a
/// limit on those of each subject.
pub fn over_limits<W: View>(view: &W) -> Option<u64>
    ensures value { result ≡ next_over (W.stream view.now) }
{
    over_subject(view).or_else(|| over_stream(view))
}

/// The same, if no subject but this one has more messages than it may have. It does not go through the messages.
pub fn over_limits_on<W: View>(view: &W, subject: &[u8]) -> Option<u64>
    requires others { IsOverOnlyOn (W.stream view.now) subject.now }
    ensures value { result ≡ next_over (W.stream view.now) }
{
    over_on(view, subject).or_else(|| over_stream(view))
}

/// How many messages the stream may have: its limit, and never more than 2^24.
pub fn max_messages<W: View>(view: &W) -> u64
    ensures value { result ≡ max_messages (W.stream view.now) }
{
    let limit = view.config().max_msgs;
    limit.unwrap_or(MOST_MESSAGES).min(MOST_MESSAGES)
}

/// The first message whose subject has too many.
fn over_subject<W: View>(view: &W) -> Option<u64>
    ensures value { result ≡ option_map (λ m. m.seq) (over_subject (W.stream view.now)) }
{
    if view.config().max_msgs_per_subject.is_none() {
        return None;
    }
    let last = view.last();
    let mut seq = 0;
    while seq <= last {
        let head = view.at_or_after(seq)?;
        if over_on(view, head.subject.as_slice()).is_some() {
            return Some(head.seq);
        }
        seq = head.seq + 1;
    }
    None
}

/// The first message of a subject, if it has too many.
fn over_on<W: View>(view: &W, subject: &[u8]) -> Option<u64>
    ensures value { result ≡ (if is_over_on (W.stream view.now) subject.now then first_number (seqs_on (W.stream view.now) subject.now) else None) }
{
    let limit = view.config().max_msgs_per_subject?;
    let counts = view.of(subject)?;
    if limit < counts.count {
        Some(counts.first)
    } else {
        None
    }
}

/// The first message of all, if there are too many, or too many bytes.
fn over_stream<W: View>(view: &W) -> Option<u64>
    ensures value { result ≡ option_map (λ m. m.seq) (over_stream (W.stream view.now)) }
{
    if is_over(view) {
        view.at_or_after(0).map(|head| head.seq)
    } else {
        None
    }
}

/// Whether there are too many messages, or too many bytes.
fn is_over<W: View>(view: &W) -> bool
    ensures value { result ≡ is_over (W.stream view.now) }
{
    max_messages(view) < view.count() || is_above(view.bytes(), view.config().max_bytes)
}

/// Whether a number is above the limit, if there is one.
fn is_above(number: u64, limit: Option<u64>) -> bool
    ensures value { result ≡ over_limit number limit }
{
    limit.is_some_and(|limit| limit < number)
}
