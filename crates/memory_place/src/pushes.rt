//! What is seen of a push consumer of the stream.

ghost use Rattle.std.specs.Prelude.{◌≡◌};
ghost use Rattle.place_engine.specs.Pushes.{push_of};

use followed_stream::Follower;
use place_engine::Push;

/// What is seen of a consumer.
pub(crate) fn push_consumer<'a>(follower: &'a Follower) -> Push<'a>
    ensures value { result ≡ push_of follower.now.consumer }
{
    let config = follower.config();
    Push {
        name: follower.name(),
        subject: &config.deliver_subject,
        group: if config.deliver_group.is_empty() {
            None
        } else {
            Some(&config.deliver_group)
        },
    }
}
