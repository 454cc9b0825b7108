//! Messages that are taken out, and noted.

ghost use Rattle.std.specs.Prelude.{◌≡◌, ◌+◌, ◌<◌, true, is_some, length, All};
ghost use Rattle.js_base.specs.Bytes.{has};
ghost use Rattle.js_model.specs.Events.{is_below, message_at};
ghost use Rattle.js_model.specs.Lists.{Between};
ghost use Rattle.js_model.specs.Streams.{seqs};
ghost use Rattle.followed_stream.specs.Attended.{without_seq, without_seqs, IsAttended};
ghost use Rattle.removals.specs.Leaving.{follows, leaving};
ghost use Rattle.removals.specs.Removed.{HasPlace, Notes, NotesOne};
ghost use Rattle.stream_state.specs.Removing.{HasRoom};

use followed_stream::FollowedStream;
use removals::Removals;

/// Takes the messages of these sequences out, which ascend, and notes them. It takes no memory.
pub(crate) fn remove_all(stream: &mut FollowedStream, sequences: &[u64], gone: &mut Removals)
    requires sound { IsAttended stream.old }
    requires room { HasRoom stream.old gone.old }
    requires ascends { Between (λ n. n) 1 (stream.old.last + 1) sequences.now }
    requires there { All (λ n. has (seqs stream.old.messages) n ≡ true) sequences.now }
    ensures left { stream.new ≡ without_seqs sequences.now stream.old }
    ensures sound { IsAttended stream.new }
    ensures gone { Notes gone.old (leaving gone.old.below stream.old.messages stream.new.messages) gone.new }
    ensures room { HasRoom stream.new gone.new }
{
    let mut last = None;
    for seq in sequences {
        take_out(stream, *seq, last, gone);
        last = Some(*seq);
    }
}

/// Takes the message of a sequence out, and notes it; `last` is the sequence that left before it by the same filter. It takes no memory.
pub(crate) fn take_out(
    stream: &mut FollowedStream,
    seq: u64,
    last: Option<u64>,
    gone: &mut Removals,
)
    requires sound { IsAttended stream.old }
    requires room { is_below gone.old.below seq ≡ true → HasPlace (follows last stream.old.messages seq) gone.old }
    ensures left { stream.new ≡ without_seq seq stream.old }
    ensures fewer { is_some (message_at stream.old seq) ≡ true → length stream.new.messages < length stream.old.messages }
    ensures sound { IsAttended stream.new }
    ensures noted { NotesOne seq (follows last stream.old.messages seq) gone.old gone.new }
{
    gone.note(seq, follows(stream, last, seq));
    stream.remove(seq);
}

/// Whether no message is left between the sequence that left last and this one.
fn follows(stream: &FollowedStream, last: Option<u64>, seq: u64) -> bool
    ensures value { result ≡ follows last stream.now.messages seq }
{
    let Some(last) = last else {
        return false;
    };
    match stream.stored().first_from(last) {
        Some(message) => message.seq == seq,
        None => false,
    }
}
