//! The messages under their sequences, and the sum of their sizes.

ghost use Rattle.std.specs.Prelude.{◌≡◌, ◌==◌, ◌+◌, ◌^◌, ◌<◌, ◌≤◌, [], ◌∷◌, ◌++◌, None, All, filter, find, length, nat_le, not, sum_by, OnOk, OnErr};
ghost use Rattle.std.specs.List.{last_or};
ghost use Rattle.std.specs.Option.{option_copied};
ghost use Rattle.js_model.specs.Counts.{first_message};
ghost use Rattle.js_model.specs.Streams.{size};
ghost use Rattle.message_store.specs.Stored.{IsSmall};

use js_base::NoMemory;
use js_model::Message;
use std::alloc::Global;
use std::collections::BTreeMap;
use std::marker::Model;

/// Fewer than 2^32 messages in the order of their sequences. A call costs some steps in an ordered map, however many there are.
#[derive(Drop)]
pub struct MessageStore {
    pub(crate) messages: BTreeMap<u64, Message>,
    /// Their sizes, together.
    bytes: u64,
}

impl Model for MessageStore {
    ghost use Rattle.std.specs.Prelude.{List};
    ghost use Rattle.std.specs.BTreeMap.{values};
    ghost use Rattle.js_model.specs.declared.stream.Message.{Message};
    ghost use Rattle.message_store.specs.Stored.{AreStored};

    ghost Value = { List Message };

    ghost view = { λ store. values store.messages };

    ghost invariant = { λ store. AreStored store.messages.entries store.bytes };
}

impl MessageStore {
    /// No messages. It takes no memory.
    pub fn new(alloc: Global) -> MessageStore
        ensures empty { result ≡ [] }
    {
        MessageStore {
            messages: BTreeMap::new(alloc),
            bytes: 0,
        }
    }

    /// How many messages there are, fewer than 2^32.
    pub fn len(&self) -> u64
        ensures value { result ≡ length self.now }
        ensures bound { result < 2 ^ 32 }
    {
        self.messages.len() as u64
    }

    /// Whether there are none.
    pub fn is_empty(&self) -> bool
        ensures value { result ≡ (length self.now == 0) }
    {
        self.len() == 0
    }

    /// Their sizes, together, at most 2^53.
    pub fn bytes(&self) -> u64
        ensures value { result ≡ sum_by size self.now }
        ensures bound { result ≤ 2 ^ 53 }
    {
        self.bytes
    }

    /// The message of the sequence.
    pub fn get(&self, seq: u64) -> Option<&Message>
        ensures value { option_copied result ≡ find (λ m. m.seq == seq) self.now }
    {
        self.messages.get(&seq)
    }

    /// The message with the least sequence.
    pub fn first(&self) -> Option<&Message>
        ensures value { option_copied result ≡ first_message self.now }
    {
        self.messages.values().next()
    }

    /// The message with the greatest sequence.
    pub fn last(&self) -> Option<&Message>
        ensures value { option_copied result ≡ last_or None self.now }
    {
        self.messages.values().next_back()
    }

    /// The first message with the sequence or a greater one.
    pub fn at_or_after(&self, seq: u64) -> Option<&Message>
        ensures value { option_copied result ≡ find (λ m. nat_le seq m.seq) self.now }
    {
        match self.messages.range(seq..).next() {
            Some((_, message)) => Some(message),
            None => None,
        }
    }

    /// The last message with the sequence or a smaller one.
    pub fn at_or_before(&self, seq: u64) -> Option<&Message>
        ensures value { option_copied result ≡ last_or None (filter (λ m. nat_le m.seq seq) self.now) }
    {
        match self.messages.range(..=seq).next_back() {
            Some((_, message)) => Some(message),
            None => None,
        }
    }

    /// Adds a message of at most 2^21 bytes, whose sequence is greater than all others. An `Err` changes nothing.
    pub fn push(&mut self, message: Message) -> Result<(), NoMemory>
        requires above { All (λ m. m.seq < message.seq) self.old }
        requires small { IsSmall message }
        requires room { length self.old + 1 < 2 ^ 32 }
        ensures ok { OnOk result (self.new ≡ self.old ++ message ∷ []) }
        ensures err { OnErr result (self.new ≡ self.old) }
    {
        let size = message.size() as u64;
        self.messages.insert(message.seq, message)?;
        self.bytes += size;
        Ok(())
    }

    /// Takes the message of the sequence out, if there is one. It takes no memory.
    pub fn remove(&mut self, seq: u64) -> Option<Message>
        ensures value { result ≡ find (λ m. m.seq == seq) self.old }
        ensures left { self.new ≡ filter (λ m. not (m.seq == seq)) self.old }
    {
        match self.messages.remove(&seq) {
            Some(message) => {
                self.bytes -= message.size() as u64;
                Some(message)
            }
            None => None,
        }
    }
}
