//! Messages that the retention no longer keeps.

ghost use Rattle.std.specs.Prelude.{◌≡◌, ◌&&◌, not, nat_le};
ghost use Rattle.js_model.specs.Retention.{is_kept, kept};
ghost use Rattle.stored_stream.specs.Selecting.{next_passing};
ghost use Rattle.followed_stream.specs.Attended.{IsAttended};
ghost use Rattle.followed_stream.specs.Spans.{IsKeptOutside};
ghost use Rattle.removals.specs.Leaving.{leaving};
ghost use Rattle.removals.specs.Removed.{Notes};
ghost use Rattle.stream_state.specs.Removing.{HasRoom};

use crate::removing::take_out;
use followed_stream::{FollowedStream, Span};
use js_model::{Message, Retention};
use removals::Removals;
use retention::is_kept;
use stream_view::View;

/// Lets the messages go that the retention does not keep, and notes them. None of them is outside the span; it looks at the messages in the span alone. It takes no
/// memory.
pub(crate) fn release(stream: &mut FollowedStream, loose: Span, gone: &mut Removals)
    requires sound { IsAttended stream.old }
    requires outside { IsKeptOutside loose stream.old }
    requires room { HasRoom stream.old gone.old }
    ensures left { stream.new ≡ kept stream.old }
    ensures sound { IsAttended stream.new }
    ensures gone { Notes gone.old (leaving gone.old.below stream.old.messages (kept stream.old).messages) gone.new }
    ensures room { HasRoom stream.new gone.new }
{
    match stream.config().retention {
        Retention::Limits => (),
        Retention::Interest | Retention::WorkQueue => release_unneeded(stream, loose, gone),
    }
}

/// The same, whatever the retention is.
fn release_unneeded(stream: &mut FollowedStream, loose: Span, gone: &mut Removals)
    requires sound { IsAttended stream.old }
    requires outside { IsKeptOutside loose stream.old }
    requires room { HasRoom stream.old gone.old }
    ensures left { stream.new ≡ kept stream.old }
    ensures sound { IsAttended stream.new }
    ensures gone { Notes gone.old (leaving gone.old.below stream.old.messages (kept stream.old).messages) gone.new }
    ensures room { HasRoom stream.new gone.new }
{
    let mut last = None;
    while let Some(seq) = first_unkept(stream, last.unwrap_or(loose.first), loose.last) {
        take_out(stream, seq, last, gone);
        last = Some(seq);
    }
}

/// The sequence of the first message between two sequences that the retention does not keep.
fn first_unkept(stream: &FollowedStream, from: u64, last: u64) -> Option<u64>
    requires sound { IsAttended stream.now }
    ensures value { result ≡ next_passing (λ m. nat_le m.seq last && not (is_kept stream.now.config.retention stream.now.consumers m)) stream.now.messages from }
{
    let mut from = from;
    while let Some(message) = stream.stored().first_from(from) {
        if last < message.seq {
            return None;
        }
        if !keeps(stream, message) {
            return Some(message.seq);
        }
        from = message.seq + 1;
    }
    None
}

/// Whether the retention keeps the message.
fn keeps(stream: &FollowedStream, message: &Message) -> bool
    ensures value { result ≡ is_kept stream.now.config.retention stream.now.consumers message.now }
{
    let retention = stream.config().retention;
    let subject = message.subject.as_slice();
    is_kept(retention, stream.followers(), subject, message.seq)
}
