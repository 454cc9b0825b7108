//! Streams that are restored from what was kept of them.

ghost use Rattle.std.specs.Prelude.{◌≡◌, All, length, map, IfOk};
ghost use Rattle.consumer_state.specs.Keeping.{IsRestorable as IsRestorableConsumer};
ghost use Rattle.stored_stream.specs.Stored.{IsSound};
ghost use Rattle.followed_stream.specs.Attended.{IsAttended};
ghost use Rattle.followed_stream.specs.Followers.{IsCounted};
ghost use Rattle.followed_stream.specs.Restoring.{IsRestorable};

use crate::followed::FollowedStream;
use crate::follower::Follower;
use consumer_state::Consumer;
use js_base::NoMemory;
use js_model::{Consumer as KeptConsumer, Stream};
use std::alloc::Global;
use stored_stream::StoredStream;

impl FollowedStream {
    /// The stream that was kept. It goes through the messages, and once more for each consumer.
    pub fn restore(alloc: Global, kept: &Stream) -> Result<FollowedStream, NoMemory>
        requires kept { IsRestorable kept.now }
        ensures value { IfOk result (λ s. s ≡ kept.now) }
        ensures sound { IfOk result IsAttended }
    {
        let stored = StoredStream::restore(alloc, kept)?;
        let followers = followers_of(alloc, kept.consumers.as_slice(), &stored)?;
        Ok(FollowedStream { stored, followers })
    }
}

/// The consumers that were kept, of what is stored.
fn followers_of(
    alloc: Global,
    kept: &[KeptConsumer],
    stored: &StoredStream,
) -> Result<Vec<Follower>, NoMemory>
    requires sound { IsSound stored.now }
    requires kept { All IsRestorableConsumer kept.now }
    ensures value { IfOk result (λ followers. map (λ f. f.consumer) followers.items ≡ kept.now) }
    ensures counted { IfOk result (λ followers. All (IsCounted stored.now.messages) followers.items) }
{
    let mut followers = Vec::new(alloc);
    for consumer in kept {
        let consumer = Consumer::restore(alloc, consumer)?;
        followers.push(Follower::of(consumer, stored))?;
    }
    Ok(followers)
}
