//! Which messages a filter selects, and how many they are.

ghost use Rattle.std.specs.Prelude.{◌≡◌, length, IfOk};
ghost use Rattle.js_base.specs.Bytes.{Bytes};
ghost use Rattle.js_model.specs.Streams.{passes_filter};
ghost use Rattle.stored_stream.specs.Selecting.{selects, selected};
ghost use Rattle.stored_stream.specs.Stored.{IsSound};

use crate::stored::StoredStream;
use js_base::NoMemory;
use stream_view::View;
use subject_match::check_subject;

/// What a filter selects.
#[derive(Clone, Copy)]
pub enum Selector<'a> {
    /// All messages.
    All,
    /// Those of one subject.
    Subject(&'a [u8]),
    /// Those whose subjects match a pattern.
    Pattern(&'a [u8]),
}

impl<'a> Selector<'a> {
    /// What the filter selects. The empty one selects all.
    pub fn of(filter: &'a [u8]) -> Selector<'a>
        ensures value { (subject : Bytes) → selects result subject ≡ passes_filter filter.now subject }
    {
        if filter.is_empty() {
            Selector::All
        } else if check_subject(filter).is_ok() {
            Selector::Subject(filter)
        } else {
            Selector::Pattern(filter)
        }
    }

    /// How many messages are selected. For a pattern it looks at the subjects that it may match, and at no message.
    pub fn count(self, stream: &StoredStream) -> Result<u64, NoMemory>
        requires sound { IsSound stream.now }
        ensures value { IfOk result (λ count. count ≡ length (selected self.entry stream.now.messages)) }
    {
        match self {
            Selector::All => Ok(stream.count()),
            Selector::Subject(subject) => Ok(count_of(stream, subject)),
            Selector::Pattern(pattern) => stream.messages().count_matching(pattern),
        }
    }
}

/// How many messages of the subject there are.
fn count_of(stream: &StoredStream, subject: &[u8]) -> u64
    ensures value { result ≡ length (selected (Selector.Subject subject.entry) stream.now.messages) }
{
    match stream.of(subject) {
        Some(counts) => counts.count,
        None => 0,
    }
}
