//! A stream's messages, ids, numbers and consumers, whether or not its limits hold.

ghost use Rattle.std.specs.Prelude.{◌≡◌, ◌+◌, ◌^◌, ◌<◌, ◌≤◌, None, false, is_some, length, map, All, IsTrue, OnOk, OnErr};
ghost use Rattle.std.specs.Bool.{OnTrue};
ghost use Rattle.js_base.specs.Bytes.{is_empty};
ghost use Rattle.js_model.specs.declared.stream.Message.{Message};
ghost use Rattle.js_model.specs.Advance.{consumer_at, remembered};
ghost use Rattle.js_model.specs.Configs.{is_stream_config};
ghost use Rattle.js_model.specs.Consumers.{empty_stream};
ghost use Rattle.js_model.specs.Events.{message_at, with_message};
ghost use Rattle.js_model.specs.Proper.{is_proper_publish};
ghost use Rattle.js_model.specs.Verdict.{known};
ghost use Rattle.timers.specs.Bounds.{IsTimerBound};
ghost use Rattle.timers.specs.Timers.{stream_timers};
ghost use Rattle.followed_stream.specs.Attended.{stored_of, without_seq, IsAttended};
ghost use Rattle.followed_stream.specs.Delivering.{AreCurrentAt};
ghost use Rattle.followed_stream.specs.Followers.{IsCounted};
ghost use Rattle.followed_stream.specs.Needing.{NeedSame};
ghost use Rattle.followed_stream.specs.Spans.{spans};

use crate::follower::{Follower, advance_all, gain_all, lose_all, next_of_all};
use crate::span::Span;
use js_base::{Moment, NoMemory};
use js_model::{Publish, StreamConfig};
use std::alloc::Global;
use std::marker::Model;
use stored_stream::StoredStream;
use stream_view::{Counts, Head, View};
use timer_bounds::earlier;

/// A stream with its consumers, whose limits may be passed.
#[derive(Drop)]
pub struct FollowedStream {
    pub(crate) stored: StoredStream,
    pub(crate) followers: Vec<Follower>,
}

impl Model for FollowedStream {
    ghost use Rattle.js_model.specs.declared.stream.Stream.{Stream};
    ghost use Rattle.followed_stream.specs.Followers.{attended, AreFollowed};

    ghost Value = { Stream };

    ghost view = { λ s. attended s.stored s.followers.items };

    ghost invariant = { λ s. AreFollowed s.stored s.followers.items };
}

impl FollowedStream {
    /// A stream without messages and consumers. It takes no memory.
    pub fn make(
        alloc: Global,
        incarnation: u64,
        config: StreamConfig,
        now: Moment,
    ) -> FollowedStream
        requires valid { IsTrue (is_stream_config config) }
        requires incarnation { incarnation < 2 ^ 62 }
        ensures value { result ≡ empty_stream incarnation config now }
        ensures sound { IsAttended result }
    {
        FollowedStream {
            stored: StoredStream::make(alloc, incarnation, config, now),
            followers: Vec::new(alloc),
        }
    }

    /// What is stored of it.
    pub fn stored(&self) -> &StoredStream
        ensures value { stored_of result.now ≡ stored_of self.now }
    {
        &self.stored
    }

    /// Its consumers, each with what is still to be delivered to it.
    pub fn followers(&self) -> &[Follower]
        ensures value { map (λ f. f.consumer) result.now ≡ self.now.consumers }
        ensures counted { All (IsCounted self.now.messages) result.now }
    {
        self.followers.as_slice()
    }

    /// Stores the message of a publish under the next sequence, and remembers its id. An `Err` changes nothing.
    pub fn store(&mut self, publish: &Publish) -> Result<(), NoMemory>
        requires numbers { self.old.last + 1 < 2 ^ 62 }
        requires room { length self.old.messages + 1 < 2 ^ 32 }
        requires proper { IsTrue (is_proper_publish publish.now) }
        requires new_id { known self.old publish.now.wants.id ≡ None }
        requires id_room { is_empty publish.now.wants.id ≡ false → length self.old.ids < 2 ^ 20 }
        ensures ok { OnOk result (self.new ≡ with_message self.old publish.now) }
        ensures sound { OnOk result (IsAttended self.new) }
        ensures err { OnErr result (self.new ≡ self.old) }
    {
        self.stored.store(publish)?;
        let seq = self.stored.last();
        gain_all(
            self.followers.as_mut_slice(),
            publish.subject.as_slice(),
            seq,
        );
        Ok(())
    }

    /// Takes the message of the sequence out, and tells whether there was one. Its consumers forget it. It takes no memory.
    pub fn remove(&mut self, seq: u64) -> bool
        ensures there { result ≡ is_some (message_at self.old seq) }
        ensures left { self.new ≡ without_seq seq self.old }
        ensures fewer { OnTrue result (length self.new.messages < length self.old.messages) }
        ensures sound { IsAttended self.new }
    {
        let Some(message) = self.stored.get(seq) else {
            return false;
        };
        lose_all(
            self.followers.as_mut_slice(),
            message.subject.as_slice(),
            seq,
        );
        self.stored.remove(seq)
    }

    /// Lets time pass for what is stored until a later moment: the ids go that no longer count. It takes no memory.
    pub fn pass_time(&mut self, now: Moment)
        requires later { self.old.moment ≤ now }
        ensures left { self.new ≡ record self.old { moment = now; ids = remembered self.old now } }
        ensures sound { IsAttended self.new }
    {
        self.stored.pass_time(now);
    }

    /// Lets time pass for the consumers up to a moment. Gives a span outside which they need the messages that they needed before. It takes no memory.
    pub fn advance_consumers(&mut self, now: Moment) -> Span
        ensures left { self.new ≡ record self.old { consumers = map (consumer_at now) self.old.consumers } }
        ensures loose { (m : Message) → spans result m.seq ≡ false → NeedSame m self.new.consumers self.old.consumers }
        ensures current { AreCurrentAt now self.new }
        ensures sound { IsAttended self.new }
    {
        advance_all(self.followers.as_mut_slice(), now)
    }

    /// A moment before which time alone changes nothing of the stream but its moment, apart from what it changes at once; `None` only if it never will. It
    /// looks at one message, at one id, and at each consumer once.
    pub fn next_timer(&self) -> Option<Moment>
        ensures bound { IsTimerBound (stream_timers self.now) result }
    {
        let followers = next_of_all(self.followers.as_slice(), self.stored.moment());
        earlier(self.stored.next_timer(), followers)
    }

    /// Replaces the configuration. Messages and ids stay.
    pub fn set_config(&mut self, config: StreamConfig)
        requires valid { IsTrue (is_stream_config config) }
        ensures value { self.new ≡ record self.old { config = config } }
        ensures sound { IsAttended self.new }
    {
        self.stored.set_config(config);
    }
}

impl View for FollowedStream {
    ghost stream = { λ s. s };

    fn config(&self) -> &StreamConfig {
        self.stored.config()
    }

    fn moment(&self) -> Moment {
        self.stored.moment()
    }

    fn last(&self) -> u64 {
        self.stored.last()
    }

    fn count(&self) -> u64 {
        self.stored.count()
    }

    fn bytes(&self) -> u64 {
        self.stored.bytes()
    }

    fn at_or_after(&self, seq: u64) -> Option<Head<'_>> {
        self.stored.at_or_after(seq)
    }

    fn at_or_before(&self, seq: u64) -> Option<Head<'_>> {
        self.stored.at_or_before(seq)
    }

    fn of(&self, subject: &[u8]) -> Option<Counts> {
        self.stored.of(subject)
    }
}
