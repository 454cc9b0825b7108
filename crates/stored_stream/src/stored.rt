//! A stream's messages, ids and numbers, whether or not its limits hold.

ghost use Rattle.std.specs.Prelude.{◌≡◌, ◌+◌, ◌^◌, ◌<◌, ◌≤◌, [], ◌∷◌, ◌++◌, None, false, find, is_some, length, nat_le, sum_by, IfOk, IfSome, IsTrue, IsUtf8, OnOk, OnErr};
ghost use Rattle.std.specs.Bool.{OnTrue};
ghost use Rattle.std.specs.List.{last_or};
ghost use Rattle.std.specs.Option.{option_copied};
ghost use Rattle.dedup_window.specs.Window.{id_of, IsLatest};
ghost use Rattle.js_base.specs.Bytes.{is_empty};
ghost use Rattle.js_model.specs.Advance.{remembered};
ghost use Rattle.js_model.specs.Configs.{is_stream_config};
ghost use Rattle.js_model.specs.Consumers.{empty_stream};
ghost use Rattle.js_model.specs.Counts.{first_message};
ghost use Rattle.js_model.specs.Events.{message_at, with_message};
ghost use Rattle.js_model.specs.Proper.{is_proper_publish};
ghost use Rattle.js_model.specs.Verdict.{known, last_on};
ghost use Rattle.stored_stream.specs.Stored.{stored_message, with_known, without, IsSound};

use crate::indexed::IndexedMessages;
use dedup_window::{DedupWindow, WindowFault};
use js_base::{Blob, Moment, NoMemory};
use js_model::{Message, Publish, StreamConfig};
use std::alloc::Global;
use std::marker::Model;
use stream_view::{Counts, Head, View};

/// A stream without consumers, whose limits may be passed.
#[derive(Drop)]
pub struct StoredStream {
    pub(crate) incarnation: u64,
    pub(crate) made: Moment,
    pub(crate) config: StreamConfig,
    pub(crate) messages: IndexedMessages,
    /// The duplicate window.
    pub(crate) ids: DedupWindow,
    pub(crate) last: u64,
    pub(crate) moment: Moment,
}

impl Model for StoredStream {
    ghost use Rattle.js_model.specs.declared.stream.Stream.{Stream};
    ghost use Rattle.stored_stream.specs.Stored.{alone, AreHeld};

    ghost Value = { Stream };

    ghost view = { λ s. alone s.incarnation s.made s.config s.messages s.last s.moment s.ids.ids };

    ghost invariant = { λ s. AreHeld (alone s.incarnation s.made s.config s.messages s.last s.moment s.ids.ids) s.ids.window };
}

impl StoredStream {
    /// A stream without messages. It takes no memory.
    pub fn make(alloc: Global, incarnation: u64, config: StreamConfig, now: Moment) -> StoredStream
        requires valid { IsTrue (is_stream_config config) }
        requires incarnation { incarnation < 2 ^ 62 }
        ensures value { result ≡ empty_stream incarnation config now }
        ensures sound { IsSound result }
    {
        let window = config.duplicate_window;
        StoredStream {
            incarnation,
            made: now,
            config,
            messages: IndexedMessages::new(alloc),
            ids: DedupWindow::new(alloc, window),
            last: 0,
            moment: now,
        }
    }

    /// The number of the stream among those of its place.
    pub fn incarnation(&self) -> u64
        ensures value { result ≡ self.now.incarnation }
    {
        self.incarnation
    }

    /// The moment at which it was made.
    pub fn made(&self) -> Moment
        ensures value { result ≡ self.now.made }
    {
        self.made
    }

    /// Its messages, with their indexes.
    pub(crate) fn messages(&self) -> &IndexedMessages
        ensures value { result.now ≡ self.now.messages }
    {
        &self.messages
    }

    /// The ids of its window.
    pub(crate) fn ids(&self) -> &DedupWindow
        ensures value { result.now.ids ≡ self.now.ids }
    {
        &self.ids
    }

    /// How many ids its window has, at most 2^20, whether or not they still count.
    pub fn id_count(&self) -> u64
        ensures value { result ≡ length self.now.ids }
        ensures bound { result ≤ 2 ^ 20 }
    {
        self.ids.len()
    }

    /// How many bytes these ids have together.
    pub fn id_bytes(&self) -> u64
        ensures value { result ≡ sum_by (λ i. length i.id) self.now.ids }
        ensures bound { result ≤ 2 ^ 40 }
    {
        self.ids.bytes()
    }

    /// The first message.
    pub fn first(&self) -> Option<&Message>
        ensures value { option_copied result ≡ first_message self.now.messages }
    {
        self.messages.by_sequence().first()
    }

    /// The last message.
    pub fn last_message(&self) -> Option<&Message>
        ensures value { option_copied result ≡ last_or None self.now.messages }
    {
        self.messages.by_sequence().last()
    }

    /// The first message from a sequence on.
    pub fn first_from(&self, seq: u64) -> Option<&Message>
        ensures value { option_copied result ≡ find (λ m. nat_le seq m.seq) self.now.messages }
    {
        self.messages.by_sequence().at_or_after(seq)
    }

    /// The message of a sequence.
    pub fn get(&self, seq: u64) -> Option<&Message>
        ensures value { option_copied result ≡ message_at self.now seq }
        ensures utf8 { IfSome result (λ message. IsUtf8 message.now.subject) }
    {
        self.messages.by_sequence().get(seq)
    }

    /// The last stored message of the subject.
    pub fn last_on(&self, subject: &[u8]) -> Option<&Message>
        ensures value { option_copied result ≡ last_on self.now subject.now }
        ensures utf8 { IfSome result (λ message. IsUtf8 message.now.subject) }
    {
        let counts = self.messages.of(subject)?;
        self.get(counts.last)
    }

    /// Stores the message of a publish under the next sequence, and remembers its id. An `Err` changes nothing.
    pub fn store(&mut self, publish: &Publish) -> Result<(), NoMemory>
        requires numbers { self.old.last + 1 < 2 ^ 62 }
        requires room { length self.old.messages + 1 < 2 ^ 32 }
        requires proper { IsTrue (is_proper_publish publish.now) }
        requires new_id { known self.old publish.now.wants.id ≡ None }
        requires id_room { is_empty publish.now.wants.id ≡ false → length self.old.ids < 2 ^ 20 }
        ensures ok { OnOk result (self.new ≡ with_message self.old publish.now) }
        ensures sound { OnOk result (IsSound self.new) }
        ensures err { OnErr result (self.new ≡ self.old) }
    {
        let seq = self.last + 1;
        let message = message_of(publish, seq, self.moment)?;
        self.messages.push(message)?;
        match remember(&mut self.ids, &publish.wants.id, seq, self.moment) {
            Ok(()) => {
                self.last = seq;
                Ok(())
            }
            Err(refused) => {
                self.messages.remove(seq);
                Err(refused)
            }
        }
    }

    /// Takes the message of the sequence out, and tells whether there was one. It takes no memory.
    pub fn remove(&mut self, seq: u64) -> bool
        ensures there { result ≡ is_some (message_at self.old seq) }
        ensures left { self.new ≡ without seq self.old }
        ensures fewer { OnTrue result (length self.new.messages < length self.old.messages) }
        ensures sound { IsSound self.new }
    {
        self.messages.remove(seq)
    }

    /// Lets time pass until a later moment, and the ids go that no longer count. It takes no memory.
    pub fn pass_time(&mut self, now: Moment)
        requires later { self.old.moment ≤ now }
        ensures left { self.new ≡ record self.old { moment = now; ids = remembered self.old now } }
        ensures sound { IsSound self.new }
    {
        self.ids.expire(now);
        self.moment = now;
    }

    /// Replaces the configuration. Messages and ids stay.
    pub fn set_config(&mut self, config: StreamConfig)
        requires valid { IsTrue (is_stream_config config) }
        ensures value { self.new ≡ record self.old { config = config } }
        ensures sound { IsSound self.new }
    {
        self.ids.set_window(config.duplicate_window);
        self.config = config;
    }
}

impl View for StoredStream {
    ghost stream = { λ s. s };

    fn config(&self) -> &StreamConfig {
        &self.config
    }

    fn moment(&self) -> Moment {
        self.moment
    }

    fn last(&self) -> u64 {
        self.last
    }

    fn count(&self) -> u64 {
        self.messages.by_sequence().len()
    }

    fn bytes(&self) -> u64 {
        self.messages.by_sequence().bytes()
    }

    fn at_or_after(&self, seq: u64) -> Option<Head<'_>> {
        match self.messages.by_sequence().at_or_after(seq) {
            Some(message) => Some(Head::of(message)),
            None => None,
        }
    }

    fn at_or_before(&self, seq: u64) -> Option<Head<'_>> {
        match self.messages.by_sequence().at_or_before(seq) {
            Some(message) => Some(Head::of(message)),
            None => None,
        }
    }

    fn of(&self, subject: &[u8]) -> Option<Counts> {
        self.messages.of(subject)
    }
}

/// The message that a publish stores under a sequence at a moment.
fn message_of(publish: &Publish, seq: u64, at: Moment) -> Result<Message, NoMemory>
    ensures value { IfOk result (λ message. message ≡ stored_message publish.now seq at) }
{
    Ok(Message {
        seq,
        at,
        subject: publish.subject.clone()?,
        headers: publish.headers.clone()?,
        payload: publish.payload.clone()?,
    })
}

/// Remembers an id, of which none has the text, if it is not empty. An `Err` changes nothing.
fn remember(ids: &mut DedupWindow, id: &Blob, seq: u64, at: Moment) -> Result<(), NoMemory>
    requires absent { is_empty id.now ≡ false → id_of ids.old.ids id.now ≡ None }
    requires latest { IsLatest at ids.old.ids }
    requires room { is_empty id.now ≡ false → length ids.old.ids < 2 ^ 20 }
    ensures ok { OnOk result (ids.new ≡ record ids.old { ids = with_known ids.old.ids id.now seq at }) }
    ensures err { OnErr result (ids.new ≡ ids.old) }
{
    if id.is_empty() {
        return Ok(());
    }
    add_id(ids, id, seq, at)
}

/// Adds an id of which none has the text. An `Err` changes nothing.
pub(crate) fn add_id(ids: &mut DedupWindow, id: &Blob, seq: u64, at: Moment) -> Result<(), NoMemory>
    requires absent { id_of ids.old.ids id.now ≡ None }
    requires latest { IsLatest at ids.old.ids }
    requires room { length ids.old.ids < 2 ^ 20 }
    ensures ok { OnOk result (ids.new ≡ record ids.old { ids = ids.old.ids ++ record { id = id.now; seq = seq; at = at } ∷ [] }) }
    ensures err { OnErr result (ids.new ≡ ids.old) }
{
    match ids.add(id, seq, at) {
        Ok(()) => Ok(()),
        Err(WindowFault::NoMemory) => Err(NoMemory),
        Err(WindowFault::Full) => unreachable!(),
    }
}
