//! Pages of the consumers of a stream.

ghost use Rattle.std.specs.Prelude.{◌≡◌, map, All, IfOk};
ghost use Rattle.js_model.specs.declared.stream.Stream.{Stream};
ghost use Rattle.js_model.specs.Counts.{consumer_info, pending_count};
ghost use Rattle.js_model.specs.Events.{page_of};

use followed_stream::Follower;
use js_base::{Blob, List, NoMemory};
use js_model::ConsumerInfo;
use std::alloc::Global;

/// The page of the consumers from an offset on: at most so many, none if they end before.
pub(crate) fn page(followers: &[Follower], most: u64, offset: u64) -> &[Follower]
    ensures value { result.now ≡ page_of most offset followers.now }
{
    let from = followers.len().min(offset as usize);
    let rest = &followers[from..];
    &rest[..rest.len().min(most as usize)]
}

/// Their names.
pub(crate) fn names(alloc: Global, followers: &[Follower]) -> Result<List<Blob>, NoMemory>
    ensures value { IfOk result (λ names. names ≡ map (λ f. f.consumer.name) followers.now) }
{
    let mut names = List::new(alloc);
    for follower in followers {
        names.push(follower.name().clone()?)?;
    }
    Ok(names)
}

/// Their informations as consumers of the stream of this name.
pub(crate) fn infos(
    alloc: Global,
    followers: &[Follower],
    stream: &Blob,
) -> Result<List<ConsumerInfo>, NoMemory>
    ensures value { (s : Stream) → s.config.name ≡ stream.now → All (λ f. f.undelivered ≡ pending_count s f.consumer) followers.now → IfOk result (λ infos. infos ≡ map (λ f. consumer_info s f.consumer) followers.now) }
{
    let mut infos = List::new(alloc);
    for follower in followers {
        infos.push(follower.info(stream)?)?;
    }
    Ok(infos)
}
