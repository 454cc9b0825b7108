//! Subjects with too many messages.

ghost use Rattle.std.specs.Prelude.{◌≡◌};
ghost use Rattle.retention.specs.Over.{is_over_on};
ghost use Rattle.stored_stream.specs.Selecting.{next_passing};
ghost use Rattle.stored_stream.specs.Stored.{IsSound};

use crate::stored::StoredStream;
use stream_view::View;

/// The sequence of the first message from a sequence on whose subject has more messages than it may have, by JetStream's
/// `max_msgs_per_subject`. It goes through the messages.
pub fn first_crowded(stream: &StoredStream, from: u64) -> Option<u64>
    requires sound { IsSound stream.now }
    ensures value { result ≡ next_passing (λ m. is_over_on stream.now m.subject) stream.now.messages from }
{
    let mut from = from;
    while let Some(message) = stream.first_from(from) {
        if is_crowded(stream, message.subject.as_slice()) {
            return Some(message.seq);
        }
        from = message.seq + 1;
    }
    None
}

/// Whether a subject has more messages than it may have.
fn is_crowded(stream: &StoredStream, subject: &[u8]) -> bool
    requires sound { IsSound stream.now }
    ensures value { result ≡ is_over_on stream.now subject.now }
{
    let Some(most) = stream.config().max_msgs_per_subject else {
        return false;
    };
    match stream.of(subject) {
        Some(counts) => most < counts.count,
        None => false,
    }
}
