//! Messages that are too old.

ghost use Rattle.std.specs.Prelude.{◌≡◌, ◌≤◌};
ghost use Rattle.js_model.specs.Advance.{young};
ghost use Rattle.js_model.specs.Streams.{only};
ghost use Rattle.followed_stream.specs.Attended.{IsAttended};
ghost use Rattle.removals.specs.Leaving.{leaving};
ghost use Rattle.removals.specs.Removed.{Notes};

use crate::removing::take_out;
use followed_stream::FollowedStream;
use js_base::Moment;
use removals::Removals;
use stored_stream::first_old;

/// Lets the messages go that are too old at a moment, by JetStream's `max_age`, and notes them. It takes no memory, and costs what it removes.
pub(crate) fn drop_old(stream: &mut FollowedStream, now: Moment, gone: &mut Removals)
    requires sound { IsAttended stream.old }
    requires room { 1 ≤ gone.old.spare }
    ensures left { stream.new ≡ only stream.old (young stream.old now) }
    ensures sound { IsAttended stream.new }
    ensures gone { Notes gone.old (leaving gone.old.below stream.old.messages (young stream.old now)) gone.new }
{
    let mut last = None;
    while let Some(seq) = first_old(stream.stored(), now) {
        take_out(stream, seq, last, gone);
        last = Some(seq);
    }
}
