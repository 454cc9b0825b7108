//! Consumers as their stream keeps them.

ghost use Rattle.std.specs.Prelude.{◌≡◌, ◌+◌, ◌^◌, ◌<◌, ◌≤◌, false, All, length, map};
ghost use Rattle.std.specs.List.{flat_map, position, prefix_len};
ghost use Rattle.js_model.specs.declared.stream.Message.{Message};
ghost use Rattle.js_model.specs.Consumers.{is_before};
ghost use Rattle.js_model.specs.Retention.{needs};
ghost use Rattle.model_laws.specs.Sound.{AreOrdered};
ghost use Rattle.timers.specs.Bounds.{IsTimerBound};
ghost use Rattle.timers.specs.Timers.{consumer_timers, later};
ghost use Rattle.followed_stream.specs.Delivering.{IsCurrentAt};
ghost use Rattle.followed_stream.specs.Followers.{gaining, is_named, losing, standing};
ghost use Rattle.followed_stream.specs.Needing.{NeedSame};
ghost use Rattle.followed_stream.specs.Spans.{spans};

use crate::passing::pass_time;
use crate::span::Span;
use consumer_need::Need;
use consumer_state::Consumer;
use js_base::{Blob, Moment};
use js_model::ConsumerConfig;
use std::marker::Model;
use timer_bounds::earlier;

/// A consumer, and how many messages of its stream are still to be delivered to it.
#[derive(Drop)]
pub struct Follower {
    pub(crate) consumer: Consumer,
    pub(crate) undelivered: u64,
}

impl Model for Follower {
    ghost use Rattle.followed_stream.specs.Followers.{Following};

    ghost Value = { Following };

    ghost view = { λ f. record { consumer = f.consumer; undelivered = f.undelivered } };
}

impl Follower {
    /// The consumer's name.
    pub fn name(&self) -> &Blob
        ensures value { result.now ≡ self.now.consumer.name }
    {
        self.consumer.name()
    }

    /// Its configuration.
    pub fn config(&self) -> &ConsumerConfig
        ensures value { result.now ≡ self.now.consumer.config }
    {
        self.consumer.config()
    }

    /// Whether its name is this one.
    pub fn is_named(&self, name: &Blob) -> bool
        ensures value { result ≡ is_named name.now self.now }
    {
        self.name().as_slice() == name.as_slice()
    }

    /// Whether its name is before this one.
    fn is_before(&self, name: &Blob) -> bool
        ensures value { result ≡ is_before self.now.consumer.name name.now }
    {
        self.name().as_slice().cmp(name.as_slice()).is_lt()
    }

    /// Takes note of a message that was stored.
    fn gain(&mut self, subject: &[u8], seq: u64)
        requires room { self.old.undelivered < 2 ^ 32 }
        ensures value { self.new ≡ gaining subject.now seq self.old }
    {
        if self.consumer.awaits(subject, seq) {
            self.undelivered += 1;
        }
    }

    /// Lets time pass up to a moment. Gives a span outside which the consumer needs the messages that it needed before. It takes no memory.
    fn advance(&mut self, now: Moment) -> Span
        ensures value { self.new ≡ standing now self.old }
        ensures loose { (m : Message) → spans result m.seq ≡ false → needs self.new.consumer m ≡ needs self.old.consumer m }
        ensures current { IsCurrentAt now self.new.consumer }
    {
        pass_time(&mut self.consumer, now)
    }

    /// Takes note of a message that is removed. It takes no memory.
    fn lose(&mut self, subject: &[u8], seq: u64)
        ensures value { self.new ≡ losing subject.now seq self.old }
    {
        if self.consumer.awaits(subject, seq) {
            self.undelivered = self.undelivered.saturating_sub(1);
        }
        self.consumer.forget(seq);
    }
}

/// A moment before which time alone brings nothing to any of them, apart from what comes by `now`; `None` only if it never brings more.
pub(crate) fn next_of_all(followers: &[Follower], now: Moment) -> Option<Moment>
    ensures bound { IsTimerBound (later now (flat_map consumer_timers (map (λ f. f.consumer) followers.now))) result }
{
    let mut next = None;
    for follower in followers {
        next = earlier(next, follower.consumer.next_timer(now));
    }
    next
}

/// Lets time pass for all up to a moment. Gives a span outside which they need the messages that they needed before. It takes no memory.
pub(crate) fn advance_all(followers: &mut [Follower], now: Moment) -> Span
    ensures value { followers.new ≡ map (standing now) followers.old }
    ensures loose { (m : Message) → spans result m.seq ≡ false → NeedSame m (map (λ f. f.consumer) followers.new) (map (λ f. f.consumer) followers.old) }
    ensures current { All (λ f. IsCurrentAt now f.consumer) followers.new }
{
    let mut loose = Span::none();
    for follower in followers.iter_mut() {
        loose = loose.join(follower.advance(now));
    }
    loose
}

impl Need for Follower {
    ghost consumer = { λ f. f.consumer };

    fn takes(&self, subject: &[u8]) -> bool {
        self.consumer.takes(subject)
    }

    fn needs(&self, subject: &[u8], seq: u64) -> bool {
        self.consumer.needs(subject, seq)
    }
}

/// The place of the consumer of a name among those in the order of their names.
pub(crate) fn place_of(followers: &[Follower], name: &Blob) -> Option<usize>
    requires ordered { AreOrdered (map (λ f. f.consumer) followers.now) }
    ensures value { result ≡ position (is_named name.now) followers.now }
{
    let place = place_before(followers, name);
    let follower = followers.get(place)?;
    if follower.is_named(name) {
        Some(place)
    } else {
        None
    }
}

/// How many of the consumers, which stand in the order of their names, have names before this one.
pub(crate) fn place_before(followers: &[Follower], name: &Blob) -> usize
    requires ordered { AreOrdered (map (λ f. f.consumer) followers.now) }
    ensures value { result ≡ prefix_len (λ f. is_before f.consumer.name name.now) followers.now }
    ensures within { result ≤ length followers.now }
{
    followers.partition_point(|follower| follower.is_before(name))
}

/// Tells all of a message that was stored.
pub(crate) fn gain_all(followers: &mut [Follower], subject: &[u8], seq: u64)
    requires room { All (λ f. f.undelivered < 2 ^ 32) followers.old }
    ensures value { followers.new ≡ map (gaining subject.now seq) followers.old }
{
    for follower in followers.iter_mut() {
        follower.gain(subject, seq);
    }
}

/// Tells all of a message that is removed. It takes no memory.
pub(crate) fn lose_all(followers: &mut [Follower], subject: &[u8], seq: u64)
    ensures value { followers.new ≡ map (losing subject.now seq) followers.old }
{
    for follower in followers.iter_mut() {
        follower.lose(subject, seq);
    }
}
