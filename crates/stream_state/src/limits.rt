//! The first message that passes a limit.

ghost use Rattle.std.specs.Prelude.{◌≡◌, nat_lt, None, if◌then◌else◌, length, option_map, sum_by};
ghost use Rattle.js_model.specs.Counts.{first_message};
ghost use Rattle.js_model.specs.Streams.{over_limit, size};
ghost use Rattle.js_model.specs.Trim.{max_messages};
ghost use Rattle.retention.specs.Over.{over_subject, IsOverOnlyOn};

use followed_stream::FollowedStream;
use retention::max_messages;
use stream_view::View;

/// The sequence of the first message of a subject, if it has more than it may have, and no other has.
pub(crate) fn first_over_on(stream: &FollowedStream, subject: &[u8]) -> Option<u64>
    requires others { IsOverOnlyOn stream.now subject.now }
    ensures value { result ≡ option_map (λ m. m.seq) (over_subject stream.now) }
{
    let limit = stream.config().max_msgs_per_subject?;
    let counts = stream.of(subject)?;
    if limit < counts.count {
        Some(counts.first)
    } else {
        None
    }
}

/// The sequence of the first message, if there are more than there may be.
pub(crate) fn first_over_count(stream: &FollowedStream) -> Option<u64>
    ensures value { result ≡ (if nat_lt (max_messages stream.now) (length stream.now.messages) then option_map (λ m. m.seq) (first_message stream.now.messages) else None) }
{
    if max_messages(stream) < stream.count() {
        first_seq(stream)
    } else {
        None
    }
}

/// The sequence of the first message, if all are together larger than they may be.
pub(crate) fn first_over_bytes(stream: &FollowedStream) -> Option<u64>
    ensures value { result ≡ (if over_limit (sum_by size stream.now.messages) stream.now.config.max_bytes then option_map (λ m. m.seq) (first_message stream.now.messages) else None) }
{
    let limit = stream.config().max_bytes?;
    if limit < stream.bytes() {
        first_seq(stream)
    } else {
        None
    }
}

/// The sequence of the first message.
fn first_seq(stream: &FollowedStream) -> Option<u64>
    ensures value { result ≡ option_map (λ m. m.seq) (first_message stream.now.messages) }
{
    match stream.stored().first() {
        Some(message) => Some(message.seq),
        None => None,
    }
}
