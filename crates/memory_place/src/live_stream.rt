//! The stream of a place in memory.

ghost use Rattle.std.specs.Prelude.{◌≡◌, ◌≢◌, ◌==◌, ◌||◌, ◌≤◌, ◌++◌, ◌^◌, ◌<◌, [], nat_lt, not, true, Option, length, option_map, slice_get, IfOk, IfSome, OnOk, OnErr, IsTrue, IsUtf8};
ghost use Rattle.std.specs.List.{flat_map, list_any};
ghost use Rattle.js_base.specs.Bytes.{Bytes};
ghost use Rattle.js_model.specs.declared.stream.State.TheVariants.{Live};
ghost use Rattle.js_model.specs.Advance.{advance, advance_outs};
ghost use Rattle.js_model.specs.Configs.{is_stream_config};
ghost use Rattle.js_model.specs.Consumers.{empty_stream};
ghost use Rattle.js_model.specs.Events.{farewells, settled, stream_answer};
ghost use Rattle.js_model.specs.Proper.{is_proper_what};
ghost use Rattle.js_model.specs.Retention.{kept};
ghost use Rattle.js_model.specs.Ready.{is_ready};
ghost use Rattle.js_model.specs.Verdict.{verdict};
ghost use Rattle.effects.specs.Effects.{live_effects, settle_effects};
ghost use Rattle.effects.specs.TimeEffects.{time_effects};
ghost use Rattle.followed_stream.specs.Delivering.{AreCurrent};
ghost use Rattle.place_engine.specs.Places.{IsTold};
ghost use Rattle.place_engine.specs.Pushes.{push_of, pushes_in};
ghost use Rattle.place_engine.specs.Shown.{IsShown};
ghost use Rattle.memory_place.specs.Needing.{replaces_config, stream_needs_room, takes};
ghost use Rattle.memory_place.specs.Answers.{Acts, MayDeliver, StreamAnswers};
ghost use Rattle.memory_place.specs.Recording.{own_then, TellsSent};
ghost use Rattle.place_records.specs.Records.{effects_in, own_in, time_in, IsFresh, IsFreshOwn, IsFreshTime};
ghost use Rattle.stream_state.specs.Removing.{HasRoom, HasRoomForOne};
ghost use Rattle.timers.specs.Bounds.{IsTimerBound};
ghost use Rattle.timers.specs.Timers.{stream_timers};

use crate::pushes::push_consumer;
use crate::sameness::{same_retention, same_stream_config};
use js_base::{Blob, Moment, NoMemory, Outs};
use js_model::{
    Delivery, Listening, Publish, Reply, StreamConfig, Verdict, What, copy_stream_config,
};
use place_engine::{Left, Push};
use place_records::{Made, OwnRecords, TimeRecords};
use std::alloc::Global;
use std::marker::Model;
use stream_state::StreamState;
use stream_view::View;

/// A stream with its consumers. Its payloads are shared with those who published them.
#[derive(Drop)]
pub struct LiveStream {
    pub(crate) alloc: Global,
    pub(crate) state: StreamState,
}

impl Model for LiveStream {
    ghost use Rattle.js_model.specs.declared.stream.Stream.{Stream};

    ghost Value = { Stream };

    ghost view = { λ live. live.state };
}

impl LiveStream {
    /// A new stream without messages and consumers.
    pub fn make(
        alloc: Global,
        incarnation: u64,
        config: &StreamConfig,
        now: Moment,
    ) -> Result<LiveStream, NoMemory>
        requires valid { IsTrue (is_stream_config config.now) }
        requires incarnation { incarnation < 2 ^ 62 }
        ensures made { IfOk result (λ stream. stream ≡ empty_stream incarnation config.now now) }
    {
        let config = copy_stream_config(alloc, config)?;
        Ok(LiveStream {
            alloc,
            state: StreamState::make(alloc, incarnation, config, now),
        })
    }

    /// The number of the stream among those of its place.
    pub fn incarnation(&self) -> u64
        ensures value { result ≡ self.now.incarnation }
        ensures bound { result < 2 ^ 62 }
    {
        self.state.incarnation()
    }

    /// The name of the stream.
    pub fn name(&self) -> &Blob
        ensures value { result.now ≡ self.now.config.name }
        ensures utf8 { IsUtf8 result.now }
    {
        self.state.holds();
        &self.state.config().name
    }

    /// Its subjects.
    pub fn subjects(&self) -> &[Blob]
        ensures value { result.now ≡ self.now.config.subjects }
    {
        self.state.config().subjects.as_slice()
    }

    /// How many messages it holds.
    pub fn messages(&self) -> u64
        ensures value { result ≡ length self.now.messages }
        ensures bound { result < 2 ^ 32 }
    {
        self.state.count()
    }

    /// The push consumer at a place in the order of their names.
    pub fn push(&self, at: usize) -> Option<Push<'_>>
        ensures value { result ≡ option_map push_of (slice_get (pushes_in (Live self.now)) at) }
        ensures few { length (pushes_in (Live self.now)) ≤ 256 }
    {
        self.state.holds();
        let follower = self.state.push(at)?;
        Some(push_consumer(follower))
    }

    /// Whether a consumer is ready at a moment.
    pub fn ready(&self, now: Moment, listening: &Listening) -> bool
        ensures value { result ≡ list_any (is_ready (advance self.now now) listening.now) (advance self.now now).consumers }
    {
        self.state.next_ready(now, listening).is_some()
    }

    /// A moment before which time alone changes nothing but the stream's own moment. `None` if it never changes more.
    pub fn next_timer(&self) -> Option<Moment>
        ensures bound { IsTimerBound (stream_timers self.now) result }
    {
        self.state.next_timer()
    }

    /// Forgets the records, and takes memory for those of the messages that an event or a delivery may let go.
    pub fn start(&self, made: &mut Made) -> Result<(), NoMemory>
        ensures fresh { IsFresh made.new }
        ensures none { effects_in made.new ≡ [] }
        ensures time_room { OnOk result (1 ≤ made.new.time.aged.spare) }
        ensures own_room { OnOk result (HasRoomForOne self.now made.new.own.removed) }
    {
        made.clear();
        made.time.aged.reserve(1)?;
        self.state.make_room(&mut made.own.removed)
    }

    /// Lets time pass until a moment, or until its own if that is later, adds what the consumers send by then, and records what passes. An `Err`
    /// changes nothing and adds nothing.
    pub fn pass(
        &mut self,
        now: Moment,
        outs: &mut Outs,
        time: &mut TimeRecords,
    ) -> Result<(), NoMemory>
        requires fresh { IsFreshTime time.old }
        requires room { 1 ≤ time.old.aged.spare }
        ensures passed { OnOk result (self.new ≡ advance self.old now) }
        ensures outs { OnOk result (outs.new ≡ outs.old ++ advance_outs self.old now) }
        ensures current { OnOk result (AreCurrent self.new) }
        ensures recorded { OnOk result (time_in time.new ≡ time_effects self.old now) }
        ensures err { OnErr result (self.new ≡ self.old) }
        ensures err_outs { OnErr result (outs.new ≡ outs.old) }
        ensures err_time { OnErr result (time.new ≡ time.old) }
    {
        let names = self.state.giving_up(now)?;
        self.state.tell_advance(now, outs)?;
        let moment = self.state.moment();
        let ids = self.state.id_count();
        time.given_up = self.state.advance(now, &mut time.aged, names);
        time.moment = self.state.moment();
        time.seen = is_seen(moment, time.moment, ids, self.state.id_count());
        Ok(())
    }

    /// Lets the messages go that the retention does not keep, and records which. It takes no memory.
    pub fn release(&mut self, own: &mut OwnRecords)
        requires room { HasRoom self.old own.old.removed }
        ensures value { self.new ≡ settled self.old }
        ensures again { settled self.new ≡ self.new }
        ensures recorded { own_in own.new ≡ own_then own.old self.old }
        ensures then { own_then own.new self.new ≡ own_then own.old self.old }
        ensures kept { kept self.new ≡ self.new }
        ensures effect { own.new.effect ≡ own.old.effect }
        ensures fresh { IsFreshOwn own.old → own_in own.new ≡ settle_effects [] (Live self.old) }
        ensures fresh_then { IsFreshOwn own.old → own_then own.new self.new ≡ settle_effects [] (Live self.old) }
        ensures room { HasRoom self.new own.new.removed }
    {
        self.state.holds();
        self.state.release(&mut own.removed);
    }

    /// Does what is asked at the stream's moment, answers it, and lets the messages go that the retention then does not keep, also if it finds no
    /// memory; records what it does. Its place drops it, and lets time pass for it.
    pub fn answer(
        &mut self,
        what: &What,
        outs: &mut Outs,
        own: &mut OwnRecords,
    ) -> Result<Reply, NoMemory>
        requires told { IsTold what.now }
        requires proper { IsTrue (is_proper_what what.now) }
        requires more { what.now ≢ What.Tick }
        requires stays { (reply : Option Bytes) → what.now ≢ What.Drop reply }
        requires fresh { IsFreshOwn own.old }
        requires room { HasRoomForOne self.old own.old.removed }
        ensures answers { IfOk result (λ reply. StreamAnswers self.old what.now reply outs.old outs.new (Live self.new)) }
        ensures shown { IfOk result IsShown }
        ensures recorded { OnOk result (own_in own.new ≡ live_effects self.old what.now true) }
        ensures err { OnErr result (self.new ≡ settled self.old) }
        ensures err_outs { OnErr result (outs.new ≡ outs.old) }
        ensures err_recorded { OnErr result (own_in own.new ≡ settle_effects [] (Live self.old)) }
    {
        let said = self.act(what, outs, own);
        self.release(own);
        said
    }

    /// The same, but for the messages that the retention then does not keep: some may be there still. An `Err` may have let some of them go.
    fn act(&mut self, what: &What, outs: &mut Outs, own: &mut OwnRecords) -> Result<Reply, NoMemory>
        requires told { IsTold what.now }
        requires proper { IsTrue (is_proper_what what.now) }
        requires more { what.now ≢ What.Tick }
        requires stays { (reply : Option Bytes) → what.now ≢ What.Drop reply }
        requires fresh { IsFreshOwn own.old }
        requires room { HasRoomForOne self.old own.old.removed }
        ensures acts { IfOk result (λ reply. Acts (stream_answer self.old what.now true) reply outs.old outs.new self.new) }
        ensures shown { IfOk result IsShown }
        ensures recorded { OnOk result (own_then own.new self.new ≡ live_effects self.old what.now true) }
        ensures room { HasRoom self.new own.new.removed }
        ensures err { OnErr result (settled self.new ≡ settled self.old) }
        ensures err_outs { OnErr result (outs.new ≡ outs.old) }
        ensures err_recorded { OnErr result (own_then own.new self.new ≡ settle_effects [] (Live self.old)) }
    {
        self.state.holds();
        match what {
            What::Make { reply: _, config } => self.make_again(config, own),
            What::Change { reply: _, config } => self.change(config, own),
            What::Publish(publish) => self.publish(publish, own),
            What::Purge {
                reply: _,
                filter,
                below,
                keep,
            } => self.purge(filter.as_slice(), *below, *keep, own),
            What::Delete { reply: _, seq } => self.delete(*seq, own),
            What::MakeConsumer {
                reply: _,
                name,
                config,
                update,
            } => self.ask_consumer(name, config, *update, own),
            What::DropConsumer { reply: _, name } => self.drop_consumer(name, outs, own),
            What::Ack { reply, ack } => self.ack(ack, reply.as_ref(), outs, own),
            What::Pull {
                reply,
                consumer,
                ask,
            } => self.pull(consumer, reply.as_ref(), *ask, outs, own),
            What::StreamInfo { reply: _ } => self.show(own),
            What::MessageGet { reply: _, by } => self.read(by),
            What::ConsumerInfo { reply: _, name } => self.show_consumer(name, own),
            What::ConsumerNames { reply: _, offset } => self.list_names(*offset),
            What::ConsumerList { reply: _, offset } => self.list_consumers(*offset, own),
            What::Drop { reply: _ } | What::Tick => unreachable!(),
        }
    }

    /// Whether what is asked needs room at its moment: a publish that is taken, another configuration, or a consumer that is made.
    pub fn needs_room(&self, what: &What) -> Result<bool, NoMemory>
        requires told { IsTold what.now }
        requires proper { IsTrue (is_proper_what what.now) }
        ensures value { IfOk result (λ needs. needs ≡ stream_needs_room self.now what.now) }
    {
        match what {
            What::Publish(publish) => self.takes(publish),
            What::Change { reply: _, config } => Ok(self.replaces_config(config)),
            What::MakeConsumer {
                reply: _,
                name,
                config,
                update,
            } => self.makes_consumer(name, config, *update),
            What::Make { .. }
            | What::Drop { .. }
            | What::Purge { .. }
            | What::Delete { .. }
            | What::DropConsumer { .. }
            | What::Ack { .. }
            | What::Pull { .. }
            | What::Tick
            | What::StreamInfo { .. }
            | What::MessageGet { .. }
            | What::ConsumerInfo { .. }
            | What::ConsumerNames { .. }
            | What::ConsumerList { .. } => Ok(false),
        }
    }

    /// Whether it takes a publish, if there is room for it.
    fn takes(&self, publish: &Publish) -> Result<bool, NoMemory>
        requires told { IfSome publish.now.wants.bad IsUtf8 }
        ensures value { IfOk result (λ is. is ≡ takes (verdict self.now publish.now true)) }
    {
        match self.verdict(publish)? {
            Verdict::Take => Ok(true),
            Verdict::Duplicate(_) => Ok(false),
            Verdict::Refused(_) => Ok(false),
        }
    }

    /// Whether a configuration is another one that it takes.
    fn replaces_config(&self, config: &StreamConfig) -> bool
        ensures value { result ≡ replaces_config self.now config.now }
    {
        let current = self.state.config();
        same_retention(config.retention, current.retention) && !same_stream_config(config, current)
    }

    /// Adds what is sent to all waiting pulls as the stream goes. An `Err` adds nothing.
    pub fn tell_dropped(&self, outs: &mut Outs) -> Result<(), NoMemory>
        ensures ok { OnOk result (outs.new ≡ outs.old ++ flat_map farewells self.now.consumers) }
        ensures err { OnErr result (outs.new ≡ outs.old) }
    {
        self.state.tell_dropped(outs)
    }
}

/// Whether a stream's moment is recorded: it was another one before, or ids left.
fn is_seen(before: Moment, now: Moment, ids_before: u64, ids: u64) -> bool
    ensures value { result ≡ (not (before == now) || nat_lt ids ids_before) }
{
    before != now || ids < ids_before
}
