//! Messages, found by their sequences and by their subjects.

ghost use Rattle.std.specs.Prelude.{◌≡◌, ◌==◌, ◌&&◌, ◌+◌, ◌^◌, ◌<◌, ◌≤◌, [], ◌∷◌, ◌++◌, None, All, filter, find, is_some, length, nat_le, not, option_map, sum_by, IfOk, OnOk, OnErr};
ghost use Rattle.std.specs.List.{last_or};
ghost use Rattle.std.specs.Option.{option_copied};
ghost use Rattle.js_base.specs.Bytes.{same};
ghost use Rattle.js_base.specs.Subjects.{matches, tokens};
ghost use Rattle.js_model.specs.Counts.{first_message};
ghost use Rattle.js_model.specs.Streams.{seqs, size};
ghost use Rattle.message_store.specs.Stored.{IsSmall};
ghost use Rattle.stored_stream.specs.Heads.{AreHeads};
ghost use Rattle.stored_stream.specs.Indexed.{on_subject};
ghost use Rattle.stream_view.specs.Counting.{counts_of};

use crate::heads::{Heads, heads_of};
use js_base::NoMemory;
use js_model::Message;
use message_store::MessageStore;
use std::alloc::Global;
use std::marker::Model;
use stream_view::Counts;
use subject_counts::SubjectCounts;

/// Messages in the order of their sequences, and an index by their subjects. A call costs some steps in ordered maps, however many there are.
#[derive(Drop)]
pub(crate) struct IndexedMessages {
    messages: MessageStore,
    /// The sequences of each subject.
    subjects: SubjectCounts,
}

impl Model for IndexedMessages {
    ghost use Rattle.std.specs.Prelude.{List};
    ghost use Rattle.js_model.specs.declared.stream.Message.{Message};
    ghost use Rattle.stored_stream.specs.Indexed.{AreIndexed};

    ghost Value = { List Message };

    ghost view = { λ indexed. indexed.messages };

    ghost invariant = { λ indexed. AreIndexed indexed.subjects indexed.messages };
}

impl IndexedMessages {
    /// No messages. It takes no memory.
    pub(crate) fn new(alloc: Global) -> IndexedMessages
        ensures empty { result ≡ [] }
    {
        IndexedMessages {
            messages: MessageStore::new(alloc),
            subjects: SubjectCounts::new(alloc),
        }
    }

    /// The messages without the index.
    pub(crate) fn by_sequence(&self) -> &MessageStore
        ensures value { result.now ≡ self.now }
    {
        &self.messages
    }

    /// How many messages of the subject there are, and the sequences of the first and the last.
    pub(crate) fn of(&self, subject: &[u8]) -> Option<Counts>
        ensures value { result ≡ counts_of (seqs (on_subject subject.now self.now)) }
    {
        self.subjects.of(subject)
    }

    /// The least sequence of the subject from this one on.
    pub(crate) fn at_or_after(&self, subject: &[u8], seq: u64) -> Option<u64>
        ensures value { result ≡ find (λ n. nat_le seq n) (seqs (on_subject subject.now self.now)) }
    {
        self.subjects.at_or_after(subject, seq)
    }

    /// How many messages there are whose subjects the pattern matches.
    pub(crate) fn count_matching(&self, pattern: &[u8]) -> Result<u64, NoMemory>
        requires few { length self.now < 2 ^ 32 }
        ensures value { IfOk result (λ count. count ≡ length (filter (λ m. matches (tokens pattern.now) (tokens m.subject)) self.now)) }
    {
        let counted = self.subjects.matching(pattern)?;
        Ok(total(counted.as_slice()))
    }

    /// The first message of each subject that the pattern matches.
    pub(crate) fn heads_matching(&self, alloc: Global, pattern: &[u8]) -> Result<Heads, NoMemory>
        ensures value { IfOk result (λ heads. AreHeads (λ t. matches (tokens pattern.now) (tokens t)) self.now 0 heads) }
    {
        let counted = self.subjects.matching(pattern)?;
        heads_of(alloc, counted.as_slice())
    }

    /// Adds a message at the end. An `Err` changes nothing.
    pub(crate) fn push(&mut self, message: Message) -> Result<(), NoMemory>
        requires above { All (λ m. m.seq < message.seq) self.old }
        requires small { IsSmall message }
        requires room { length self.old + 1 < 2 ^ 32 }
        ensures ok { OnOk result (self.new ≡ self.old ++ message ∷ []) }
        ensures err { OnErr result (self.new ≡ self.old) }
    {
        let seq = message.seq;
        let subject = message.subject.clone()?;
        self.subjects.add(&subject, seq)?;
        match self.messages.push(message) {
            Ok(()) => Ok(()),
            Err(refused) => {
                self.subjects.remove(subject.as_slice(), seq);
                Err(refused)
            }
        }
    }

    /// Takes the message of the sequence out, and tells whether there was one. It takes no memory.
    pub(crate) fn remove(&mut self, seq: u64) -> bool
        ensures there { result ≡ is_some (find (λ m. m.seq == seq) self.old) }
        ensures left { self.new ≡ filter (λ m. not (m.seq == seq)) self.old }
    {
        match self.messages.remove(seq) {
            Some(message) => {
                self.subjects.remove(message.subject.as_slice(), seq);
                true
            }
            None => false,
        }
    }
}

/// How many sequences they count together.
fn total(counted: &[Counts]) -> u64
    requires few { sum_by (λ c. c.count) counted.now < 2 ^ 32 }
    ensures value { result ≡ sum_by (λ c. c.count) counted.now }
{
    let mut total = 0;
    for counts in counted {
        total += counts.count;
    }
    total
}
