//! What a place holds, in memory.

ghost use Rattle.std.specs.Prelude.{◌≡◌, ◌≢◌, ◌≤◌, ◌<◌, ◌++◌, ◌^◌, ℕ, false, [], List, is_some, length, option_map, slice_get, sum_by, IfErr, IfOk, IfSome, OnErr, OnOk, Option, IsTrue, IsUtf8};
ghost use Rattle.std.specs.Option.{option_copied};
ghost use Rattle.js_base.specs.Bytes.{Bytes};
ghost use Rattle.js_base.specs.declared.out.Out.{Out};
ghost use Rattle.js_model.specs.declared.stream.Id.{Id};
ghost use Rattle.js_model.specs.declared.stream.State.TheVariants.{Vacant};
ghost use Rattle.js_model.specs.Configs.{is_stream_config};
ghost use Rattle.js_model.specs.Events.{kept_incarnation, settled_state};
ghost use Rattle.js_model.specs.Proper.{is_proper_what};
ghost use Rattle.js_model.specs.Ready.{some_ready};
ghost use Rattle.js_model.specs.StateMoments.{state_at};
ghost use Rattle.js_model.specs.Streams.{by_name};
ghost use Rattle.effects.specs.Effects.{settle_effects};
ghost use Rattle.place_engine.specs.InMemory.{left_of, MayLeave};
ghost use Rattle.place_engine.specs.Places.{IsTold, IsVacant, consumers_in, ids_in, is_config, messages_in, name_in, subjects_in};
ghost use Rattle.place_engine.specs.Pushes.{push_of, pushes_in};
ghost use Rattle.place_engine.specs.Shown.{IsShown};
ghost use Rattle.memory_place.specs.Answers.{outs_by, AnswersThen, AnswersThenIn, LeftBy, MayDeliver, PlaceAnswers, PlaceAnswersIn};
ghost use Rattle.memory_place.specs.Needing.{needs_room, vacant_needs_room};
ghost use Rattle.memory_place.specs.Recording.{asking_effects, asking_effects_in, passing_effects, HasMadeRoom, HasOwnRoom, HasTimeRoom, TellsEvent, TellsEventIn, TellsSent};
ghost use Rattle.place_records.specs.Records.{effects_in, own_in, time_in, IsFresh, IsFreshOwn, IsFreshTime};
ghost use Rattle.timers.specs.Bounds.{IsTimerBound};
ghost use Rattle.timers.specs.Timers.{timers};

use crate::live_stream::LiveStream;
use crate::sameness::same_stream_config;
use effects::Effect;
use js_base::{Blob, Moment, NoMemory, Outs};
use js_model::refusals::{no_room, no_stream, numbers_used_up};
use js_model::{Delivery, Listening, Reply, StreamConfig, What, copy_stream_config};
use place_engine::{Left, Push};
use place_records::{Made, OwnRecords, TimeRecords};
use std::alloc::Global;
use std::marker::Model;
use stream_view::View;

/// Incarnations are below it.
const NUMBERS_END: u64 = 1 << 62;

/// Nothing, with the incarnation of the last stream, or a stream.
#[derive(Drop)]
pub enum Held {
    Nothing(u64),
    Stream(LiveStream),
}

/// Room for one stream.
#[derive(Drop)]
pub struct Slot {
    pub(crate) alloc: Global,
    pub(crate) held: Held,
}

impl Model for Slot {
    ghost use Rattle.js_model.specs.declared.stream.State.{State};
    ghost use Rattle.memory_place.specs.Held.{state_of, IsInRange};

    ghost Value = { State };

    ghost view = { λ slot. state_of slot.held };

    ghost invariant = { λ slot. IsInRange slot.held };
}

impl Slot {
    /// A slot that never had a stream. It takes no memory.
    pub fn new(alloc: Global) -> Slot
        ensures value { result ≡ Vacant 0 }
    {
        Slot {
            alloc,
            held: Held::Nothing(0),
        }
    }

    /// The incarnation of the stream, or the one that the next stream will have. 2^62 is given to no stream.
    pub fn incarnation(&self) -> u64
        ensures value { result ≡ kept_incarnation self.now }
        ensures bound { result ≤ 2 ^ 62 }
    {
        match &self.held {
            Held::Nothing(last) => *last + 1,
            Held::Stream(stream) => stream.incarnation(),
        }
    }

    /// The name of the stream, if there is one.
    pub fn name(&self) -> Option<&Blob>
        ensures value { option_copied result ≡ name_in self.now }
        ensures utf8 { IfSome result (λ name. IsUtf8 name.now) }
        ensures number { IfSome result (λ _. kept_incarnation self.now < 2 ^ 62) }
    {
        match &self.held {
            Held::Nothing(_) => None,
            Held::Stream(stream) => {
                // that its number is below 2^62 is what the proof takes from this call
                let _ = stream.incarnation();
                Some(stream.name())
            }
        }
    }

    /// Its subjects, none if there is no stream.
    pub fn subjects(&self) -> &[Blob]
        ensures value { result.now ≡ subjects_in self.now }
    {
        match &self.held {
            Held::Nothing(_) => &[],
            Held::Stream(stream) => stream.subjects(),
        }
    }

    /// How many messages it holds, none if there is no stream.
    pub fn messages(&self) -> u64
        ensures value { result ≡ messages_in self.now }
        ensures bound { result < 2 ^ 32 }
    {
        match &self.held {
            Held::Nothing(_) => 0,
            Held::Stream(stream) => stream.messages(),
        }
    }

    /// How many ids its duplicate window has, whether or not they still count; none if there is no stream.
    pub fn id_count(&self) -> u64
        ensures value { result ≡ length (ids_in self.now) }
    {
        match &self.held {
            Held::Nothing(_) => 0,
            Held::Stream(stream) => stream.state.id_count(),
        }
    }

    /// How many bytes these ids have together.
    pub fn id_bytes(&self) -> u64
        ensures value { result ≡ sum_by (λ (i : Id). length i.id) (ids_in self.now) }
    {
        match &self.held {
            Held::Nothing(_) => 0,
            Held::Stream(stream) => stream.state.id_bytes(),
        }
    }

    /// How many consumers it has, none if there is no stream.
    pub fn consumer_count(&self) -> u64
        ensures value { result ≡ length (consumers_in self.now) }
        ensures few { result ≤ 256 }
    {
        match &self.held {
            Held::Nothing(_) => 0,
            Held::Stream(stream) => stream.state.consumer_count(),
        }
    }

    /// Whether it has a consumer of the name.
    pub fn has_consumer(&self, name: &Blob) -> bool
        ensures value { result ≡ is_some (by_name (consumers_in self.now) name.now) }
    {
        match &self.held {
            Held::Nothing(_) => false,
            Held::Stream(stream) => stream.state.consumer_config(name).is_some(),
        }
    }

    /// Whether there is a stream of this configuration.
    pub fn has_config(&self, config: &StreamConfig) -> bool
        ensures value { result ≡ is_config self.now config.now }
    {
        match &self.held {
            Held::Nothing(_) => false,
            Held::Stream(stream) => same_stream_config(config, stream.state.config()),
        }
    }

    /// The push consumer at a place in the order of their names.
    pub fn push(&self, at: usize) -> Option<Push<'_>>
        ensures value { result ≡ option_map push_of (slice_get (pushes_in self.now) at) }
        ensures few { length (pushes_in self.now) ≤ 256 }
    {
        match &self.held {
            Held::Nothing(_) => None,
            Held::Stream(stream) => stream.push(at),
        }
    }

    /// Whether a consumer is ready at a moment.
    pub fn ready(&self, now: Moment, listening: &Listening) -> bool
        ensures value { result ≡ some_ready self.now now listening.now }
    {
        match &self.held {
            Held::Nothing(_) => false,
            Held::Stream(stream) => stream.ready(now, listening),
        }
    }

    /// A moment before which time alone changes nothing but the stream's own moment. `None` if it never changes more, as where there is no stream.
    pub fn next_timer(&self) -> Option<Moment>
        ensures bound { IsTimerBound (timers self.now) result }
    {
        match &self.held {
            Held::Nothing(_) => None,
            Held::Stream(stream) => stream.next_timer(),
        }
    }

    /// Lets time pass until a moment, does what is asked, answers it, adds what is sent, and gives the records of all that for those that were there
    /// before. An `Err` says what is left.
    pub fn answer(
        &mut self,
        what: &What,
        now: Moment,
        outs: &mut Outs,
        made: &mut Made,
    ) -> Result<Reply, Left>
        requires told { IsTold what.now }
        requires proper { IsTrue (is_proper_what what.now) }
        ensures answers { IfOk result (λ reply. PlaceAnswers self.old what.now now reply outs.old outs.new self.new) }
        ensures shown { IfOk result IsShown }
        ensures cause { IfErr result (MayLeave self.old what.now) }
        ensures err { IfErr result (λ left. LeftBy left self.old now outs.old outs.new self.new) }
        ensures recorded { TellsEvent result self.old what.now now (effects_in made.new) }
    {
        let Ok(()) = self.start(made) else {
            return Err(Left::Nothing);
        };
        let Ok(()) = self.pass(now, outs, &mut made.time) else {
            return Err(Left::Nothing);
        };
        let left = self.left();
        match self.answer_then(what, now, outs, &mut made.own) {
            Ok(reply) => Ok(reply),
            Err(NoMemory) => Err(left),
        }
    }

    /// The same, where there is no room for what is asked: what needs room is refused and changes nothing more, and all else is answered as ever. A publish that
    /// is taken needs room, another configuration, and a stream or a consumer that is made.
    pub fn answer_without_room(
        &mut self,
        what: &What,
        now: Moment,
        outs: &mut Outs,
        made: &mut Made,
    ) -> Result<Reply, Left>
        requires told { IsTold what.now }
        requires proper { IsTrue (is_proper_what what.now) }
        ensures answers { IfOk result (λ reply. PlaceAnswersIn false self.old what.now now reply outs.old outs.new self.new) }
        ensures shown { IfOk result IsShown }
        ensures err { IfErr result (λ left. LeftBy left self.old now outs.old outs.new self.new) }
        ensures recorded { TellsEventIn false result self.old what.now now (effects_in made.new) }
    {
        let Ok(()) = self.start(made) else {
            return Err(Left::Nothing);
        };
        let Ok(()) = self.pass(now, outs, &mut made.time) else {
            return Err(Left::Nothing);
        };
        let left = self.left();
        match self.answer_or_refuse(what, now, outs, &mut made.own) {
            Ok(reply) => Ok(reply),
            Err(NoMemory) => Err(left),
        }
    }

    /// Makes one delivery at a moment, adds what it sends, and gives its records for those that were there before. `None` exactly if no consumer is
    /// ready, and then nothing changes. An `Err` says what is left.
    pub fn deliver_one(
        &mut self,
        now: Moment,
        listening: &Listening,
        outs: &mut Outs,
        made: &mut Made,
    ) -> Result<Option<Delivery>, Left>
        ensures delivers { MayDeliver result self.old now listening.now outs.old outs.new self.new }
        ensures recorded { TellsSent result self.old now self.new (effects_in made.new) }
    {
        match &mut self.held {
            Held::Nothing(_) => {
                made.clear();
                Ok(None)
            }
            Held::Stream(stream) => stream.deliver_one(now, listening, outs, made),
        }
    }

    /// Forgets the records, and takes memory for those of the messages that an event may let go.
    fn start(&self, made: &mut Made) -> Result<(), NoMemory>
        ensures fresh { IsFresh made.new }
        ensures none { effects_in made.new ≡ [] }
        ensures room { OnOk result (HasMadeRoom self.now made.new) }
    {
        match &self.held {
            Held::Nothing(_) => {
                made.clear();
                Ok(())
            }
            Held::Stream(stream) => stream.start(made),
        }
    }

    /// Lets time pass until a moment, adds what is sent by then, and records what passes. An `Err` changes nothing and adds nothing.
    fn pass(&mut self, now: Moment, outs: &mut Outs, time: &mut TimeRecords) -> Result<(), NoMemory>
        requires fresh { IsFreshTime time.old }
        requires room { HasTimeRoom self.old time.old }
        ensures passed { OnOk result (self.new ≡ state_at self.old now) }
        ensures outs { OnOk result (outs.new ≡ outs.old ++ outs_by self.old now) }
        ensures recorded { OnOk result (time_in time.new ≡ passing_effects self.old now) }
        ensures err { OnErr result (self.new ≡ self.old) }
        ensures err_outs { OnErr result (outs.new ≡ outs.old) }
        ensures err_time { OnErr result (time.new ≡ time.old) }
    {
        match &mut self.held {
            Held::Nothing(_) => Ok(()),
            Held::Stream(stream) => stream.pass(now, outs, time),
        }
    }

    /// What a step leaves that finds no memory once time has passed.
    fn left(&self) -> Left
        ensures value { result ≡ left_of self.now }
    {
        match &self.held {
            Held::Nothing(_) => Left::Nothing,
            Held::Stream(_) => Left::Ticked,
        }
    }

    /// Does what is asked at a moment to which time has come, answers it, adds what it sends, and lets the messages go that the retention then does
    /// not keep, also if it finds no memory; records what it does.
    fn answer_then(
        &mut self,
        what: &What,
        now: Moment,
        outs: &mut Outs,
        own: &mut OwnRecords,
    ) -> Result<Reply, NoMemory>
        requires told { IsTold what.now }
        requires proper { IsTrue (is_proper_what what.now) }
        requires fresh { IsFreshOwn own.old }
        requires room { HasOwnRoom self.old own.old }
        ensures answers { IfOk result (λ reply. AnswersThen self.old what.now now reply outs.old outs.new self.new) }
        ensures shown { IfOk result IsShown }
        ensures recorded { OnOk result (own_in own.new ≡ asking_effects self.old what.now now) }
        ensures takes_none { OnErr result (what.now ≢ What.Tick) }
        ensures err { OnErr result (self.new ≡ settled_state self.old) }
        ensures err_outs { OnErr result (outs.new ≡ outs.old) }
        ensures err_recorded { OnErr result (own_in own.new ≡ settle_effects [] self.old) }
    {
        match what {
            What::Tick => {
                self.settle(own);
                Ok(Reply::Silent)
            }
            What::Drop { reply: _ } => self.drop_stream(outs, own),
            _ => self.answer_other(what, now, outs, own),
        }
    }

    /// The same, of all but ticks and drops.
    fn answer_other(
        &mut self,
        what: &What,
        now: Moment,
        outs: &mut Outs,
        own: &mut OwnRecords,
    ) -> Result<Reply, NoMemory>
        requires told { IsTold what.now }
        requires proper { IsTrue (is_proper_what what.now) }
        requires more { what.now ≢ What.Tick }
        requires stays { (reply : Option Bytes) → what.now ≢ What.Drop reply }
        requires fresh { IsFreshOwn own.old }
        requires room { HasOwnRoom self.old own.old }
        ensures answers { IfOk result (λ reply. AnswersThen self.old what.now now reply outs.old outs.new self.new) }
        ensures shown { IfOk result IsShown }
        ensures recorded { OnOk result (own_in own.new ≡ asking_effects self.old what.now now) }
        ensures err { OnErr result (self.new ≡ settled_state self.old) }
        ensures err_outs { OnErr result (outs.new ≡ outs.old) }
        ensures err_recorded { OnErr result (own_in own.new ≡ settle_effects [] self.old) }
    {
        match &mut self.held {
            Held::Nothing(_) => self.answer_vacant(what, now, own),
            Held::Stream(stream) => stream.answer(what, outs, own),
        }
    }

    /// The same as `answer_then`, but that what needs room is refused.
    fn answer_or_refuse(
        &mut self,
        what: &What,
        now: Moment,
        outs: &mut Outs,
        own: &mut OwnRecords,
    ) -> Result<Reply, NoMemory>
        requires told { IsTold what.now }
        requires proper { IsTrue (is_proper_what what.now) }
        requires fresh { IsFreshOwn own.old }
        requires room { HasOwnRoom self.old own.old }
        ensures answers { IfOk result (λ reply. AnswersThenIn false self.old what.now now reply outs.old outs.new self.new) }
        ensures shown { IfOk result IsShown }
        ensures recorded { OnOk result (own_in own.new ≡ asking_effects_in false self.old what.now now) }
        ensures err { OnErr result (self.new ≡ settled_state self.old) }
        ensures err_outs { OnErr result (outs.new ≡ outs.old) }
        ensures err_recorded { OnErr result (own_in own.new ≡ settle_effects [] self.old) }
    {
        let Ok(needs) = self.needs_room(what) else {
            self.settle(own);
            return Err(NoMemory);
        };
        if !needs {
            return self.answer_then(what, now, outs, own);
        }
        self.settle(own);
        Ok(Reply::Refused(no_room(self.alloc)?))
    }

    /// Whether what is asked needs room, at a moment to which time has come.
    fn needs_room(&self, what: &What) -> Result<bool, NoMemory>
        requires told { IsTold what.now }
        requires proper { IsTrue (is_proper_what what.now) }
        ensures value { IfOk result (λ needs. needs ≡ needs_room self.now what.now) }
    {
        match &self.held {
            Held::Nothing(last) => Ok(vacant_needs_room(*last, what)),
            Held::Stream(stream) => stream.needs_room(what),
        }
    }

    /// Lets the messages go that the retention does not keep, and records which.
    fn settle(&mut self, own: &mut OwnRecords)
        requires fresh { IsFreshOwn own.old }
        requires room { HasOwnRoom self.old own.old }
        ensures value { self.new ≡ settled_state self.old }
        ensures recorded { own_in own.new ≡ settle_effects [] self.old }
    {
        match &mut self.held {
            Held::Nothing(_) => {}
            Held::Stream(stream) => stream.release(own),
        }
    }

    /// Drops the stream with its messages and consumers, tells the waiting pulls, and records it. The next one will have the next incarnation.
    fn drop_stream(&mut self, outs: &mut Outs, own: &mut OwnRecords) -> Result<Reply, NoMemory>
        requires fresh { IsFreshOwn own.old }
        requires room { HasOwnRoom self.old own.old }
        ensures answers { (subject : Option Bytes) (now : ℕ) → IfOk result (λ reply. AnswersThen self.old (What.Drop subject) now reply outs.old outs.new self.new) }
        ensures shown { IfOk result IsShown }
        ensures recorded { (subject : Option Bytes) (now : ℕ) → OnOk result (own_in own.new ≡ asking_effects self.old (What.Drop subject) now) }
        ensures err { OnErr result (self.new ≡ settled_state self.old) }
        ensures err_outs { OnErr result (outs.new ≡ outs.old) }
        ensures err_recorded { OnErr result (own_in own.new ≡ settle_effects [] self.old) }
    {
        match &mut self.held {
            Held::Nothing(_) => Ok(Reply::Refused(no_stream(self.alloc)?)),
            Held::Stream(stream) => {
                let last = stream.incarnation();
                let Ok(()) = stream.tell_dropped(outs) else {
                    stream.release(own);
                    return Err(NoMemory);
                };
                self.held = Held::Nothing(last);
                own.record(Some(Effect::DropStream));
                Ok(Reply::Done)
            }
        }
    }

    /// Makes a stream if there is none, and records it. Whatever else is asked is refused. An `Err` changes nothing.
    fn answer_vacant(
        &mut self,
        what: &What,
        now: Moment,
        own: &mut OwnRecords,
    ) -> Result<Reply, NoMemory>
        requires vacant { IsVacant self.old }
        requires proper { IsTrue (is_proper_what what.now) }
        requires more { what.now ≢ What.Tick }
        requires fresh { IsFreshOwn own.old }
        ensures answers { (outs : List Out) → IfOk result (λ reply. AnswersThen self.old what.now now reply outs outs self.new) }
        ensures shown { IfOk result IsShown }
        ensures recorded { OnOk result (own_in own.new ≡ asking_effects self.old what.now now) }
        ensures err { OnErr result (self.new ≡ self.old) }
        ensures err_own { OnErr result (own.new ≡ own.old) }
    {
        match what {
            What::Make { reply: _, config } => self.make(config, now, own),
            _ => Ok(Reply::Refused(no_stream(self.alloc)?)),
        }
    }

    /// Makes a stream, and records it. An `Err` changes nothing.
    fn make(
        &mut self,
        config: &StreamConfig,
        now: Moment,
        own: &mut OwnRecords,
    ) -> Result<Reply, NoMemory>
        requires vacant { IsVacant self.old }
        requires valid { IsTrue (is_stream_config config.now) }
        requires fresh { IsFreshOwn own.old }
        ensures answers { (subject : Option Bytes) (outs : List Out) → IfOk result (λ reply. AnswersThen self.old (What.Make subject config.now) now reply outs outs self.new) }
        ensures shown { IfOk result IsShown }
        ensures recorded { (subject : Option Bytes) → OnOk result (own_in own.new ≡ asking_effects self.old (What.Make subject config.now) now) }
        ensures err { OnErr result (self.new ≡ self.old) }
        ensures err_own { OnErr result (own.new ≡ own.old) }
    {
        let incarnation = self.incarnation();
        if incarnation == NUMBERS_END {
            return Ok(Reply::Refused(numbers_used_up(self.alloc)?));
        }
        let stream = LiveStream::make(self.alloc, incarnation, config, now)?;
        let info = stream.info()?;
        let config = copy_stream_config(self.alloc, config)?;
        self.held = Held::Stream(stream);
        own.record(Some(Effect::MakeStream {
            incarnation,
            made: now,
            config,
        }));
        Ok(Reply::Info(info))
    }
}

/// Whether what is asked of a place without a stream needs room there, after so many streams.
fn vacant_needs_room(last: u64, what: &What) -> bool
    requires last { last < 2 ^ 62 }
    ensures value { result ≡ vacant_needs_room last what.now }
{
    match what {
        What::Make { .. } => last + 1 != NUMBERS_END,
        _ => false,
    }
}
