//! What pulls are sent as time passes, as status messages.

ghost use Rattle.std.specs.Prelude.{◌≡◌, ◌++◌, OnOk, filter, map};
ghost use Rattle.js_model.specs.Advance.{timeout, pull_beat, is_over};
ghost use Rattle.pull_queue.specs.Passing.{is_beaten};

use crate::moments::{is_over, pull_comes};
use consumer_texts::{pull_beat, timeout};
use js_base::{Moment, NoMemory, Out};
use js_model::Pull;
use std::alloc::Global;

/// Adds the messages to the pulls that end.
pub(crate) fn put_timeouts(
    alloc: Global,
    outs: &mut Vec<Out>,
    pulls: &[Pull],
    now: Moment,
) -> Result<(), NoMemory>
    ensures ok { OnOk result (outs.new.items ≡ outs.old.items ++ map timeout (filter (is_over now) pulls.now)) }
{
    for pull in pulls {
        if is_over(pull, now) {
            outs.push(timeout(alloc, pull)?)?;
        }
    }
    Ok(())
}

/// Adds the heartbeats to the pulls that go on, for which they have come.
pub(crate) fn put_beats(
    alloc: Global,
    outs: &mut Vec<Out>,
    pulls: &[Pull],
    now: Moment,
) -> Result<(), NoMemory>
    ensures ok { OnOk result (outs.new.items ≡ outs.old.items ++ map pull_beat (filter (is_beaten now) pulls.now)) }
{
    for pull in pulls {
        if !is_over(pull, now) && pull_comes(pull, now) {
            outs.push(pull_beat(alloc, pull)?)?;
        }
    }
    Ok(())
}
