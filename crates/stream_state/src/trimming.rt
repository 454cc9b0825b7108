//! Messages that pass the limits.

ghost use Rattle.std.specs.Prelude.{◌≡◌, None};
ghost use Rattle.js_model.specs.Trim.{trim, trim_bytes, trim_count, trim_subjects};
ghost use Rattle.retention.specs.Over.{next_over, IsOverOnlyOn};
ghost use Rattle.followed_stream.specs.Attended.{IsAttended};
ghost use Rattle.removals.specs.Leaving.{leaving, trim_ranges};
ghost use Rattle.removals.specs.Removed.{Notes};
ghost use Rattle.stream_state.specs.Removing.{HasRoom};

use crate::limits::{first_over_bytes, first_over_count, first_over_on};
use crate::removing::take_out;
use followed_stream::FollowedStream;
use removals::Removals;
use stored_stream::first_crowded;
use stream_view::View;

/// Lets messages go until the limits hold, and notes them, limit by limit. If there is a limit on those of each subject, it goes through all messages
/// once.
pub(crate) fn trim(stream: &mut FollowedStream, gone: &mut Removals)
    requires sound { IsAttended stream.old }
    requires room { HasRoom stream.old gone.old }
    ensures left { stream.new ≡ trim stream.old }
    ensures sound { IsAttended stream.new }
    ensures within { next_over stream.new ≡ None }
    ensures gone { Notes gone.old (trim_ranges gone.old.below stream.old) gone.new }
    ensures room { HasRoom stream.new gone.new }
{
    trim_subjects(stream, gone);
    trim_count(stream, gone);
    trim_bytes(stream, gone);
}

/// The same, if no subject but this one has more messages than its limit. It costs what it removes.
pub(crate) fn trim_on(stream: &mut FollowedStream, subject: &[u8], gone: &mut Removals)
    requires sound { IsAttended stream.old }
    requires others { IsOverOnlyOn stream.old subject.now }
    requires room { HasRoom stream.old gone.old }
    ensures left { stream.new ≡ trim stream.old }
    ensures sound { IsAttended stream.new }
    ensures within { next_over stream.new ≡ None }
    ensures gone { Notes gone.old (trim_ranges gone.old.below stream.old) gone.new }
    ensures room { HasRoom stream.new gone.new }
{
    trim_subject(stream, subject, gone);
    trim_count(stream, gone);
    trim_bytes(stream, gone);
}

/// Lets messages go until no subject has more than it may have. If there is such a limit, it goes through all messages once.
fn trim_subjects(stream: &mut FollowedStream, gone: &mut Removals)
    requires sound { IsAttended stream.old }
    requires room { HasRoom stream.old gone.old }
    ensures left { stream.new ≡ trim_subjects stream.old }
    ensures sound { IsAttended stream.new }
    ensures gone { Notes gone.old (leaving gone.old.below stream.old.messages (trim_subjects stream.old).messages) gone.new }
    ensures room { HasRoom stream.new gone.new }
{
    if stream.config().max_msgs_per_subject.is_none() {
        return;
    }
    let mut last = None;
    while let Some(seq) = first_crowded(stream.stored(), last.unwrap_or(0)) {
        take_out(stream, seq, last, gone);
        last = Some(seq);
    }
}

/// The same, if no subject but this one has more messages than its limit.
fn trim_subject(stream: &mut FollowedStream, subject: &[u8], gone: &mut Removals)
    requires sound { IsAttended stream.old }
    requires others { IsOverOnlyOn stream.old subject.now }
    requires room { HasRoom stream.old gone.old }
    ensures left { stream.new ≡ trim_subjects stream.old }
    ensures sound { IsAttended stream.new }
    ensures gone { Notes gone.old (leaving gone.old.below stream.old.messages (trim_subjects stream.old).messages) gone.new }
    ensures room { HasRoom stream.new gone.new }
{
    let mut last = None;
    while let Some(seq) = first_over_on(stream, subject) {
        take_out(stream, seq, last, gone);
        last = Some(seq);
    }
}

/// Lets the first messages go until there are no more than there may be.
fn trim_count(stream: &mut FollowedStream, gone: &mut Removals)
    requires sound { IsAttended stream.old }
    requires room { HasRoom stream.old gone.old }
    ensures left { stream.new ≡ trim_count stream.old }
    ensures sound { IsAttended stream.new }
    ensures gone { Notes gone.old (leaving gone.old.below stream.old.messages (trim_count stream.old).messages) gone.new }
    ensures room { HasRoom stream.new gone.new }
{
    let mut last = None;
    while let Some(seq) = first_over_count(stream) {
        take_out(stream, seq, last, gone);
        last = Some(seq);
    }
}

/// Lets the first messages go until they are together no larger than they may be.
fn trim_bytes(stream: &mut FollowedStream, gone: &mut Removals)
    requires sound { IsAttended stream.old }
    requires room { HasRoom stream.old gone.old }
    ensures left { stream.new ≡ trim_bytes stream.old }
    ensures sound { IsAttended stream.new }
    ensures gone { Notes gone.old (leaving gone.old.below stream.old.messages (trim_bytes stream.old).messages) gone.new }
    ensures room { HasRoom stream.new gone.new }
{
    let mut last = None;
    while let Some(seq) = first_over_bytes(stream) {
        take_out(stream, seq, last, gone);
        last = Some(seq);
    }
}
