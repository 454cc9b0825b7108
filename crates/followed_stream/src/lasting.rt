//! What outlives a crash of a stream with its consumers.

ghost use Rattle.std.specs.Prelude.{◌≡◌, map, IfOk};
ghost use Rattle.js_model.specs.Lasting.{lasting_consumer};
ghost use Rattle.followed_stream.specs.Lasting.{lasting_stream};

use crate::followed::FollowedStream;
use crate::follower::Follower;
use js_base::{List, NoMemory};
use js_model::{Consumer as LastingConsumer, Stream};
use std::alloc::Global;

impl FollowedStream {
    /// What of it outlives a crash: all but the pulls that wait and the marks of consumers. The texts are shared, and its cost grows with how much there is.
    pub fn lasting(&self, alloc: Global) -> Result<Stream, NoMemory>
        ensures value { IfOk result (λ lasting. lasting ≡ lasting_stream self.now) }
    {
        let mut lasting = self.stored.lasting(alloc)?;
        lasting.consumers = lasting_consumers(alloc, self.followers.as_slice())?;
        Ok(lasting)
    }
}

/// What outlives a crash of the consumers, in their order.
fn lasting_consumers(
    alloc: Global,
    followers: &[Follower],
) -> Result<List<LastingConsumer>, NoMemory>
    ensures value { IfOk result (λ lasting. lasting ≡ map lasting_consumer (map (λ f. f.consumer) followers.now)) }
{
    let mut lasting = List::new(alloc);
    for follower in followers {
        lasting.push(follower.consumer.lasting()?)?;
    }
    Ok(lasting)
}
