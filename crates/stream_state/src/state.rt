//! A stream whose limits hold.

ghost use Rattle.std.specs.Prelude.{◌≡◌, ◌+◌, ◌^◌, ◌<◌, ◌≤◌, None, Some, is_some, length, max, sum_by, false, true, All, IfOk, IfSome, IsTrue, IsUtf8, OnOk, OnErr};
ghost use Rattle.std.specs.List.{last_or};
ghost use Rattle.std.specs.Option.{option_copied, option_to_list};
ghost use Rattle.js_model.specs.declared.reply.Verdict.TheVariants.{Take};
ghost use Rattle.js_model.specs.Advance.{advance, aged};
ghost use Rattle.js_model.specs.Configs.{is_stream_config};
ghost use Rattle.js_model.specs.Consumers.{empty_stream};
ghost use Rattle.js_model.specs.Counts.{first_message};
ghost use Rattle.js_model.specs.Events.{message_at, purge_list, with_message, without_messages};
ghost use Rattle.js_model.specs.Proper.{is_proper_publish};
ghost use Rattle.js_model.specs.Retention.{kept};
ghost use Rattle.js_model.specs.Trim.{trim};
ghost use Rattle.js_model.specs.Verdict.{last_on, verdict};
ghost use Rattle.timers.specs.Bounds.{IsTimerBound};
ghost use Rattle.timers.specs.Timers.{stream_timers};
ghost use Rattle.stream_view.specs.Order.{IsInOrder};
ghost use Rattle.followed_stream.specs.Attended.{AreNamedApart};
ghost use Rattle.followed_stream.specs.Delivering.{AreCurrent};
ghost use Rattle.removals.specs.Leaving.{leaving, trim_ranges};
ghost use Rattle.removals.specs.Removed.{Notes};
ghost use Rattle.stream_state.specs.GivingUp.{giving_up};
ghost use Rattle.stream_state.specs.Removing.{HasRoom, HasRoomForOne};
ghost use Rattle.stream_state.specs.Settled.{AreProper};

use crate::ageing::drop_old;
use crate::giving_up::{keep_giving_up, names_giving_up};
use crate::releasing::release;
use crate::removing::{remove_all, take_out};
use crate::trimming::{trim, trim_on};
use followed_stream::{FollowedStream, Span};
use js_base::{Blob, List, Moment, NoMemory};
use js_model::{Message, Publish, StreamConfig, Verdict};
use removals::Removals;
use std::alloc::Global;
use std::marker::Model;
use stored_stream::{purge_seqs, verdict};
use stream_view::{Counts, Head, View};

/// A stream with its consumers, as its limits keep it. The messages that its retention no longer keeps are there until `release`.
#[derive(Drop)]
pub struct StreamState {
    pub(crate) alloc: Global,
    pub(crate) stream: FollowedStream,
    /// The retention keeps all messages outside it.
    pub(crate) loose: Span,
    /// The place of the consumer at which the search for one that is ready begins.
    pub(crate) turn: usize,
}

impl Model for StreamState {
    ghost use Rattle.js_model.specs.declared.stream.Stream.{Stream};
    ghost use Rattle.stream_state.specs.Settled.{IsSettled};

    ghost Value = { Stream };

    ghost view = { λ state. state.stream };

    ghost invariant = { λ state. IsSettled state.stream state.loose };
}

impl StreamState {
    /// A stream without messages and consumers. It takes no memory.
    pub fn make(alloc: Global, incarnation: u64, config: StreamConfig, now: Moment) -> StreamState
        requires valid { IsTrue (is_stream_config config) }
        requires incarnation { incarnation < 2 ^ 62 }
        ensures value { result ≡ empty_stream incarnation config now }
        ensures settled { trim result ≡ result }
    {
        StreamState {
            alloc,
            stream: FollowedStream::make(alloc, incarnation, config, now),
            loose: Span::none(),
            turn: 0,
        }
    }

    /// The number of the stream among those of its place, below 2^62.
    pub fn incarnation(&self) -> u64
        ensures value { result ≡ self.now.incarnation }
        ensures bound { result < 2 ^ 62 }
    {
        self.stream.stored().incarnation()
    }

    /// What holds of every stream. It does nothing.
    pub fn holds(&self)
        ensures config { IsTrue (is_stream_config self.now.config) }
        ensures order { IsInOrder self.now }
        ensures proper { AreProper self.now.consumers }
        ensures named { AreNamedApart self.now.consumers }
        ensures settled { trim self.now ≡ self.now }
    {
        let _stream = &self.stream;
    }

    /// Takes the memory to note all that one event or one delivery can remove. An `Err` changes nothing.
    pub fn make_room(&self, gone: &mut Removals) -> Result<(), NoMemory>
        ensures room { OnOk result (HasRoomForOne self.now gone.new) }
        ensures ranges { gone.new.ranges ≡ gone.old.ranges }
        ensures below { gone.new.below ≡ gone.old.below }
        ensures err { OnErr result (gone.new ≡ gone.old) }
    {
        gone.reserve(self.stream.count() + 1)
    }

    /// How many ids the duplicate window has.
    pub fn id_count(&self) -> u64
        ensures value { result ≡ length self.now.ids }
    {
        self.stream.stored().id_count()
    }

    /// How many bytes these ids have together.
    pub fn id_bytes(&self) -> u64
        ensures value { result ≡ sum_by (λ i. length i.id) self.now.ids }
        ensures bound { result ≤ 2 ^ 40 }
    {
        self.stream.stored().id_bytes()
    }

    /// The moment at which it was made.
    pub fn made(&self) -> Moment
        ensures value { result ≡ self.now.made }
    {
        self.stream.stored().made()
    }

    /// The message of a sequence.
    pub fn get(&self, seq: u64) -> Option<&Message>
        ensures value { option_copied result ≡ message_at self.now seq }
        ensures utf8 { IfSome result (λ message. IsUtf8 message.now.subject) }
    {
        self.stream.stored().get(seq)
    }

    /// Whether there is a message of a sequence.
    fn has(&self, seq: u64) -> bool
        ensures value { result ≡ is_some (message_at self.now seq) }
    {
        self.get(seq).is_some()
    }

    /// The first message.
    pub fn first(&self) -> Option<&Message>
        ensures value { option_copied result ≡ first_message self.now.messages }
    {
        self.stream.stored().first()
    }

    /// The last message.
    pub fn last_message(&self) -> Option<&Message>
        ensures value { option_copied result ≡ last_or None self.now.messages }
    {
        self.stream.stored().last_message()
    }

    /// The last stored message of a subject.
    pub fn last_on(&self, subject: &[u8]) -> Option<&Message>
        ensures value { option_copied result ≡ last_on self.now subject.now }
        ensures utf8 { IfSome result (λ message. IsUtf8 message.now.subject) }
    {
        self.stream.stored().last_on(subject)
    }

    /// What the stream answers a publish, by JetStream's publish headers, duplicate window and discard policy, if its store has a block for the
    /// message: that is the last check, and left to the store. It does not go through the messages.
    pub fn verdict(&self, publish: &Publish) -> Result<Verdict, NoMemory>
        ensures value { IfOk result (λ said. said ≡ verdict self.now publish.now true) }
    {
        verdict(self.alloc, self.stream.stored(), publish)
    }

    /// Stores the message of a publish that is to be taken, remembers its id, and lets the messages go that the limits drop, which are noted but for the
    /// new one. Gives the message's sequence, from which on nothing is noted any more. An `Err` changes nothing.
    pub fn publish(&mut self, publish: &Publish, gone: &mut Removals) -> Result<u64, NoMemory>
        requires taken { verdict self.old publish.now true ≡ Take }
        requires proper { IsTrue (is_proper_publish publish.now) }
        requires room { HasRoomForOne self.old gone.old }
        ensures ok { OnOk result (self.new ≡ trim (with_message self.old publish.now)) }
        ensures settled { trim self.new ≡ self.new }
        ensures seq { IfOk result (λ seq. seq ≡ self.old.last + 1) }
        ensures gone { OnOk result (Notes (record gone.old { below = Some (self.old.last + 1) }) (trim_ranges (Some (self.old.last + 1)) (with_message self.old publish.now)) gone.new) }
        ensures room { OnOk result (HasRoom self.new gone.new) }
        ensures err { OnErr result (self.new ≡ self.old) }
        ensures err_gone { OnErr result (gone.new ≡ gone.old) }
    {
        self.stream.store(publish)?;
        let seq = self.stream.last();
        gone.skip_from(seq);
        trim_on(&mut self.stream, publish.subject.as_slice(), gone);
        self.loose = self.loose.join(Span::one(seq));
        Ok(seq)
    }

    /// Removes the messages that a purge names, by JetStream's stream purge: those that the filter matches, below a sequence, and all but a given
    /// number of the last ones. Gives how many they are. It costs what it removes, and for a filter with wildcards also the subjects that begin
    /// with what it has before the first of them; with both a sequence and a number, what stands below the sequence. An `Err` changes nothing.
    pub fn purge(
        &mut self,
        pattern: &[u8],
        below: Option<u64>,
        keep: Option<u64>,
        gone: &mut Removals,
    ) -> Result<u64, NoMemory>
        requires room { HasRoom self.old gone.old }
        ensures count { IfOk result (λ count. count ≡ length (purge_list self.old pattern.now below keep)) }
        ensures ok { OnOk result (self.new ≡ without_messages self.old (purge_list self.old pattern.now below keep)) }
        ensures settled { trim self.new ≡ self.new }
        ensures gone { OnOk result (Notes gone.old (leaving gone.old.below self.old.messages self.new.messages) gone.new) }
        ensures room { HasRoom self.new gone.new }
        ensures err { OnErr result (self.new ≡ self.old) }
        ensures err_gone { OnErr result (gone.new ≡ gone.old) }
    {
        let seqs = purge_seqs(self.alloc, self.stream.stored(), pattern, below, keep)?;
        remove_all(&mut self.stream, seqs.as_slice(), gone);
        Ok(seqs.len() as u64)
    }

    /// Removes the message of a sequence, and tells whether there was one. It takes no memory.
    pub fn delete(&mut self, seq: u64, gone: &mut Removals) -> bool
        requires room { HasRoom self.old gone.old }
        ensures there { result ≡ is_some (message_at self.old seq) }
        ensures none { result ≡ false → self.new ≡ self.old }
        ensures left { self.new ≡ without_messages self.old (option_to_list (message_at self.old seq)) }
        ensures settled { trim self.new ≡ self.new }
        ensures gone { Notes gone.old (leaving gone.old.below self.old.messages self.new.messages) gone.new }
        ensures room { HasRoom self.new gone.new }
    {
        if !self.has(seq) {
            return false;
        }
        take_out(&mut self.stream, seq, None, gone);
        true
    }

    /// Replaces the configuration, and lets the messages go that the new limits drop. It takes no memory.
    pub fn change(&mut self, config: StreamConfig, gone: &mut Removals)
        requires valid { IsTrue (is_stream_config config) }
        requires room { HasRoom self.old gone.old }
        ensures value { self.new ≡ trim (record self.old { config = config }) }
        ensures settled { trim self.new ≡ self.new }
        ensures gone { Notes gone.old (trim_ranges gone.old.below (record self.old { config = config })) gone.new }
        ensures room { HasRoom self.new gone.new }
    {
        self.stream.set_config(config);
        trim(&mut self.stream, gone);
        self.loose = Span::up_to(self.stream.last());
    }

    /// The names, in their order, of the consumers of which passing time would give up a delivery if no message were too old. It is called before
    /// `advance`.
    pub fn giving_up(&self, now: Moment) -> Result<List<Blob>, NoMemory>
        ensures value { IfOk result (λ names. names ≡ giving_up (max self.now.moment now) self.now.consumers) }
    {
        let now = later(self.stream.moment(), now);
        names_giving_up(self.alloc, self.stream.followers(), now)
    }

    /// Lets time pass until a moment, or until its own if that is later: messages and ids go that are too old, and the consumers stand at that
    /// moment. Of the names that `giving_up` gave, it gives those whose consumers give something up. It takes no memory but for one range, and costs
    /// what it removes and what the consumers give up.
    pub fn advance(&mut self, now: Moment, gone: &mut Removals, names: List<Blob>) -> List<Blob>
        requires room { 1 ≤ gone.old.spare }
        requires names { names ≡ giving_up (max self.old.moment now) self.old.consumers }
        ensures value { self.new ≡ advance self.old now }
        ensures current { AreCurrent self.new }
        ensures settled { trim self.new ≡ self.new }
        ensures gone { Notes gone.old (leaving gone.old.below self.old.messages self.new.messages) gone.new }
        ensures names { result ≡ giving_up (max self.old.moment now) (aged self.old (max self.old.moment now)).consumers }
    {
        let now = later(self.stream.moment(), now);
        drop_old(&mut self.stream, now, gone);
        let names = keep_giving_up(&self.stream, now, names);
        self.stream.pass_time(now);
        let loose = self.stream.advance_consumers(now);
        self.loose = self.loose.join(loose);
        names
    }

    /// A moment before which time alone changes nothing of the stream but its moment, apart from what it changes at once; `None` only if it never will. It
    /// looks at one message, at one id, and at each consumer once.
    pub fn next_timer(&self) -> Option<Moment>
        ensures bound { IsTimerBound (stream_timers self.now) result }
    {
        self.stream.next_timer()
    }

    /// Lets the messages go that the retention does not keep, by JetStream's retention policies. What its consumers need is looked up for the messages
    /// alone that they may have ceased to need since the last such call. It takes no memory.
    pub fn release(&mut self, gone: &mut Removals)
        requires room { HasRoom self.old gone.old }
        ensures value { self.new ≡ kept self.old }
        ensures again { kept self.new ≡ self.new }
        ensures settled { trim self.new ≡ self.new }
        ensures gone { Notes gone.old (leaving gone.old.below self.old.messages self.new.messages) gone.new }
        ensures room { HasRoom self.new gone.new }
    {
        release(&mut self.stream, self.loose, gone);
        self.loose = Span::none();
    }
}

impl View for StreamState {
    ghost stream = { λ s. s };

    fn config(&self) -> &StreamConfig {
        self.stream.config()
    }

    fn moment(&self) -> Moment {
        self.stream.moment()
    }

    fn last(&self) -> u64 {
        self.stream.last()
    }

    fn count(&self) -> u64 {
        self.stream.count()
    }

    fn bytes(&self) -> u64 {
        self.stream.bytes()
    }

    fn at_or_after(&self, seq: u64) -> Option<Head<'_>> {
        self.stream.at_or_after(seq)
    }

    fn at_or_before(&self, seq: u64) -> Option<Head<'_>> {
        self.stream.at_or_before(seq)
    }

    fn of(&self, subject: &[u8]) -> Option<Counts> {
        self.stream.of(subject)
    }
}

/// The later of two moments.
pub(crate) fn later(one: Moment, other: Moment) -> Moment
    ensures value { result ≡ max one other }
{
    if one.as_nanos() < other.as_nanos() {
        other
    } else {
        one
    }
}
