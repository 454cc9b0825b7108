//! How many messages are still to be delivered to a consumer.

ghost use Rattle.std.specs.Prelude.{◌≡◌, filter, length};
ghost use Rattle.consumer_need.specs.Needs.{awaits};
ghost use Rattle.stored_stream.specs.Stored.{IsSound};
ghost use Rattle.followed_stream.specs.Followers.{awaited, IsCounted};

use crate::follower::Follower;
use consumer_state::Consumer;
use js_model::Message;
use stored_stream::StoredStream;

impl Follower {
    /// A consumer of what is stored. It goes through the messages once, and takes no memory.
    pub(crate) fn of(consumer: Consumer, stored: &StoredStream) -> Follower
        requires sound { IsSound stored.now }
        ensures value { result.consumer ≡ consumer }
        ensures counted { IsCounted stored.now.messages result }
    {
        let undelivered = count_awaited(&consumer, stored);
        Follower {
            consumer,
            undelivered,
        }
    }
}

/// How many of the stored messages are still to be delivered to the consumer.
fn count_awaited(consumer: &Consumer, stored: &StoredStream) -> u64
    requires sound { IsSound stored.now }
    ensures value { result ≡ length (filter (λ m. awaits consumer.now m.subject m.seq) stored.now.messages) }
{
    let mut count = 0;
    let mut from = 0;
    while let Some(message) = stored.first_from(from) {
        count += awaited(consumer, message);
        from = message.seq + 1;
    }
    count
}

/// 1 for a message that is still to be delivered to the consumer, and else 0.
fn awaited(consumer: &Consumer, message: &Message) -> u64
    ensures value { result ≡ awaited consumer.now message.now.subject message.now.seq }
{
    if consumer.awaits(message.subject.as_slice(), message.seq) {
        1
    } else {
        0
    }
}
