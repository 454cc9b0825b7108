//! What the consumers of a stream send as time passes.

ghost use Rattle.std.specs.Prelude.{◌≡◌, ◌++◌, IfOk, OnOk, OnErr};
ghost use Rattle.std.specs.List.{flat_map};
ghost use Rattle.js_model.specs.Advance.{consumer_outs};
ghost use Rattle.js_model.specs.Events.{farewells};

use consumer_texts::append;
use followed_stream::Follower;
use js_base::{List, Moment, NoMemory, Outs};
use std::alloc::Global;

/// Adds what all of them send by a moment, one after the other. An `Err` adds nothing.
pub(crate) fn tell_all(
    alloc: Global,
    followers: &[Follower],
    now: Moment,
    outs: &mut Outs,
) -> Result<(), NoMemory>
    ensures ok { OnOk result (outs.new ≡ outs.old ++ flat_map (λ f. consumer_outs now f.consumer) followers.now) }
    ensures err { OnErr result (outs.new ≡ outs.old) }
{
    let told = told(alloc, followers, now)?;
    append(alloc, outs, told.into_vec())
}

/// What all of them send by a moment.
fn told(alloc: Global, followers: &[Follower], now: Moment) -> Result<Outs, NoMemory>
    ensures value { IfOk result (λ told. told ≡ flat_map (λ f. consumer_outs now f.consumer) followers.now) }
{
    let mut told = List::new(alloc);
    for follower in followers {
        follower.tell_advance(now, &mut told)?;
    }
    Ok(told)
}

/// Adds what is sent to all waiting pulls as the consumers go. An `Err` adds nothing.
pub(crate) fn tell_all_dropped(
    alloc: Global,
    followers: &[Follower],
    outs: &mut Outs,
) -> Result<(), NoMemory>
    ensures ok { OnOk result (outs.new ≡ outs.old ++ flat_map (λ f. farewells f.consumer) followers.now) }
    ensures err { OnErr result (outs.new ≡ outs.old) }
{
    let told = told_dropped(alloc, followers)?;
    append(alloc, outs, told.into_vec())
}

/// What is sent to their waiting pulls as they go.
fn told_dropped(alloc: Global, followers: &[Follower]) -> Result<Outs, NoMemory>
    ensures value { IfOk result (λ told. told ≡ flat_map (λ f. farewells f.consumer) followers.now) }
{
    let mut told = List::new(alloc);
    for follower in followers {
        follower.tell_dropped(&mut told)?;
    }
    Ok(told)
}
