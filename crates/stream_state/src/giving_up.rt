//! Consumers that give a delivery up as time passes.

ghost use Rattle.std.specs.Prelude.{◌≡◌, filter, map, IfOk};
ghost use Rattle.js_model.specs.Streams.{by_name};
ghost use Rattle.followed_stream.specs.Asked.{gives_up};
ghost use Rattle.stream_state.specs.GivingUp.{giving_up};

use followed_stream::{FollowedStream, Follower};
use js_base::{Blob, List, Moment, NoMemory};
use std::alloc::Global;

/// The names, in their order, of those that give something up at a moment.
pub(crate) fn names_giving_up(
    alloc: Global,
    followers: &[Follower],
    now: Moment,
) -> Result<List<Blob>, NoMemory>
    ensures value { IfOk result (λ names. names ≡ giving_up now (map (λ f. f.consumer) followers.now)) }
{
    let mut names = List::new(alloc);
    for follower in followers {
        if follower.has_spent(now) {
            names.push(follower.name().clone()?)?;
        }
    }
    Ok(names)
}

/// Leaves of the names those of consumers that give something up at a moment. It takes no memory.
pub(crate) fn keep_giving_up(stream: &FollowedStream, now: Moment, names: List<Blob>) -> List<Blob>
    ensures value { result ≡ filter (λ name. gives_up now (by_name stream.now.consumers name)) names }
{
    let mut names = names.into_vec();
    names.retain(|name| gives_up(stream, now, name));
    List::from_vec(names)
}

/// Whether the consumer of a name gives something up at a moment.
fn gives_up(stream: &FollowedStream, now: Moment, name: &Blob) -> bool
    ensures value { result ≡ gives_up now (by_name stream.now.consumers name.now) }
{
    match stream.place(name) {
        Some(place) => stream.has_spent(place, now),
        None => false,
    }
}
