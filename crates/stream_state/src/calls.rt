//! What the consumers of a stream are asked.

ghost use Rattle.std.specs.Prelude.{◌≡◌, ◌<◌, None, Some, false, length, option_map, IfErr, IfOk, IsTrue, OnOk, OnErr};
ghost use Rattle.std.specs.Option.{option_copied};
ghost use Rattle.js_model.specs.declared.reply.Reply.TheVariants.{Silent};
ghost use Rattle.js_model.specs.Configs.{is_consumer_config, is_name};
ghost use Rattle.js_model.specs.Consumers.{making_checks, new_consumer, queue_checks, with_new};
ghost use Rattle.js_model.specs.Counts.{consumer_info};
ghost use Rattle.js_model.specs.Events.{ack_answer, consumer_dropped, pull_answer, settled};
ghost use Rattle.js_model.specs.Refusals.{first_refusal};
ghost use Rattle.js_model.specs.Retention.{kept};
ghost use Rattle.js_model.specs.Start.{cursor_at, picks_at};
ghost use Rattle.js_model.specs.Streams.{by_name};
ghost use Rattle.js_model.specs.Trim.{trim};
ghost use Rattle.consumer_need.specs.Stored.{HoldsStored};
ghost use Rattle.consumer_state.specs.Making.{IsRefusal};
ghost use Rattle.removals.specs.Leaving.{leaving};
ghost use Rattle.removals.specs.Removed.{Notes};
ghost use Rattle.stream_state.specs.Answering.{due_if, ends_if, Answers};
ghost use Rattle.stream_state.specs.Removing.{HasRoom};
ghost use Rattle.stream_state.specs.Settled.{IsProperConsumer};

use crate::rules::{has_rival, is_work_queue, max_consumers};
use crate::state::StreamState;
use consumer_state::{Consumer, MakeFault, policy_refusal};
use followed_stream::Span;
use js_base::{ApiError, Blob, List, Moment, NoMemory, Outs};
use js_model::refusals::{max_consumers_reached, no_consumer, work_queue_rule};
use js_model::{Ack, Ask, ConsumerConfig, ConsumerInfo, Reply, copy_consumer_config};
use removals::Removals;
use stream_view::View;

/// A consumer that was made: what is told of it, and where it begins.
#[derive(Drop)]
pub struct NewConsumer {
    pub info: ConsumerInfo,
    /// The sequence from which on messages are still to be delivered.
    pub cursor: u64,
    /// The sequences below it that are still to be delivered, in their order.
    pub picks: List<u64>,
}

/// What came of an acknowledgement.
#[derive(Drop)]
pub struct Acknowledged {
    pub reply: Reply,
    /// Whether a delivery that waited or was given up has ended.
    pub ended: bool,
    /// The moment at which the delivery is due again, if that was another moment before.
    pub due: Option<Moment>,
}

impl Acknowledged {
    /// Nothing is acknowledged.
    fn of_nothing() -> Acknowledged
        ensures value { result ≡ record { reply = Silent; ended = false; due = None } }
    {
        Acknowledged {
            reply: Reply::Silent,
            ended: false,
            due: None,
        }
    }
}

impl StreamState {
    /// The refusal of a work queue's rules, if they forbid a consumer of this name and configuration.
    pub fn queue_refusal(
        &self,
        name: &Blob,
        config: &ConsumerConfig,
    ) -> Result<Option<ApiError>, NoMemory>
        ensures value { IfOk result (λ refusal. refusal ≡ first_refusal (queue_checks self.now name.now config.now)) }
    {
        if let Some(refusal) = policy_refusal(self.alloc, &self.stream, config)? {
            return Ok(Some(refusal));
        }
        let is_queue = is_work_queue(self.stream.config().retention);
        if is_queue && has_rival(self.stream.followers(), name, config) {
            return Ok(Some(work_queue_rule(self.alloc, b"filter_subject")?));
        }
        Ok(None)
    }

    /// Whether a consumer of a name that none has may be made. It is refused exactly if a rule forbids it, by the first one that does. It goes through the
    /// messages.
    pub fn may_make(&self, name: &Blob, config: &ConsumerConfig) -> Result<(), MakeFault>
        requires valid { IsTrue (is_consumer_config config.now) }
        ensures allowed { OnOk result (first_refusal (making_checks self.now name.now config.now) ≡ None) }
        ensures refused { IfErr result (IsRefusal (making_checks self.now name.now config.now)) }
    {
        let _ = self.new_consumer(name, config)?;
        Ok(())
    }

    /// Makes a consumer of a name that none has, and lets the messages go that the retention then does not keep. Gives its information after that. It is
    /// refused exactly if a rule forbids it, by the first one that does. An `Err` changes nothing. It goes through the messages.
    pub fn make_consumer(
        &mut self,
        name: &Blob,
        config: &ConsumerConfig,
        gone: &mut Removals,
    ) -> Result<NewConsumer, MakeFault>
        requires name { IsTrue (is_name name.now) }
        requires valid { IsTrue (is_consumer_config config.now) }
        requires absent { by_name self.old.consumers name.now ≡ None }
        requires room { HasRoom self.old gone.old }
        ensures made { OnOk result (self.new ≡ settled (record self.old { consumers = with_new self.old.consumers (new_consumer self.old name.now config.now) })) }
        ensures again { OnOk result (kept self.new ≡ self.new) }
        ensures info { IfOk result (λ told. option_map (consumer_info self.new) (by_name self.new.consumers name.now) ≡ Some told.info) }
        ensures cursor { IfOk result (λ told. told.cursor ≡ cursor_at config.now.deliver_policy config.now.filter_subject self.old) }
        ensures picks { IfOk result (λ told. told.picks ≡ picks_at config.now.deliver_policy config.now.filter_subject self.old) }
        ensures gone { OnOk result (Notes gone.old (leaving gone.old.below self.old.messages self.new.messages) gone.new) }
        ensures room { HasRoom self.new gone.new }
        ensures allowed { OnOk result (first_refusal (making_checks self.old name.now config.now) ≡ None) }
        ensures refused { IfErr result (IsRefusal (making_checks self.old name.now config.now)) }
        ensures settled { trim self.new ≡ self.new }
        ensures err { OnErr result (self.new ≡ self.old) }
        ensures err_gone { OnErr result (gone.new ≡ gone.old) }
    {
        self.holds();
        let consumer = self.new_consumer(name, config)?;
        let mut told = self.tell_new(&consumer)?;
        self.insert(consumer)?;
        self.release(gone);
        told.info.info = self.numbers(name).unwrap_or(told.info.info);
        Ok(told)
    }

    /// Adds a consumer of a name that none has. An `Err` changes nothing. It goes through the messages.
    fn insert(&mut self, consumer: Consumer) -> Result<(), NoMemory>
        requires proper { IsProperConsumer consumer }
        requires room { length self.old.consumers < 256 }
        requires holds { HoldsStored self.old consumer }
        requires absent { by_name self.old.consumers consumer.name ≡ None }
        ensures ok { OnOk result (self.new ≡ record self.old { consumers = with_new self.old.consumers consumer }) }
        ensures settled { OnOk result (trim self.new ≡ self.new) }
        ensures err { OnErr result (self.new ≡ self.old) }
    {
        self.stream.insert(consumer)?;
        self.loose = Span::up_to(self.stream.last());
        Ok(())
    }

    /// What is told of a new consumer, before it has its place.
    fn tell_new(&self, consumer: &Consumer) -> Result<NewConsumer, NoMemory>
        ensures stream { IfOk result (λ told. told.info.stream ≡ self.now.config.name) }
        ensures name { IfOk result (λ told. told.info.name ≡ consumer.now.name) }
        ensures made { IfOk result (λ told. told.info.made ≡ consumer.now.made) }
        ensures config { IfOk result (λ told. told.info.config ≡ consumer.now.config) }
        ensures cursor { IfOk result (λ told. told.cursor ≡ consumer.now.cursor) }
        ensures picks { IfOk result (λ told. told.picks ≡ consumer.now.picks) }
    {
        let info = self.info_of_new(consumer)?;
        Ok(NewConsumer {
            info,
            cursor: consumer.cursor(),
            picks: consumer.picks()?,
        })
    }

    /// Its information, with the numbers of one to which nothing is still to be delivered.
    fn info_of_new(&self, consumer: &Consumer) -> Result<ConsumerInfo, NoMemory>
        ensures stream { IfOk result (λ told. told.stream ≡ self.now.config.name) }
        ensures name { IfOk result (λ told. told.name ≡ consumer.now.name) }
        ensures made { IfOk result (λ told. told.made ≡ consumer.now.made) }
        ensures config { IfOk result (λ told. told.config ≡ consumer.now.config) }
    {
        Ok(ConsumerInfo {
            stream: self.stream.config().name.clone()?,
            name: consumer.name().clone()?,
            made: consumer.made(),
            config: copy_consumer_config(consumer.config())?,
            info: consumer.info(0),
        })
    }

    /// The consumer that would be made.
    fn new_consumer(&self, name: &Blob, config: &ConsumerConfig) -> Result<Consumer, MakeFault>
        requires valid { IsTrue (is_consumer_config config.now) }
        ensures made { IfOk result (λ made. made ≡ new_consumer self.now name.now config.now) }
        ensures holds { IfOk result (λ made. HoldsStored self.now made) }
        ensures allowed { OnOk result (first_refusal (making_checks self.now name.now config.now) ≡ None) }
        ensures refused { IfErr result (IsRefusal (making_checks self.now name.now config.now)) }
    {
        if let Some(refusal) = self.queue_refusal(name, config)? {
            return Err(MakeFault::Refused(refusal));
        }
        let consumer = Consumer::make(self.alloc, name, config, &self.stream)?;
        if max_consumers(self.stream.config()) <= self.consumer_count() {
            return Err(MakeFault::Refused(max_consumers_reached(self.alloc)?));
        }
        Ok(consumer)
    }

    /// Drops the consumer of a name, and tells its waiting pulls. Refused if there is none. An `Err` changes nothing and adds nothing.
    pub fn drop_consumer(&mut self, name: &Blob, outs: &mut Outs) -> Result<Reply, NoMemory>
        ensures answers { IfOk result (λ told. Answers (consumer_dropped self.old (by_name self.old.consumers name.now)) told outs.old outs.new self.new) }
        ensures settled { trim self.new ≡ self.new }
        ensures err { OnErr result (self.new ≡ self.old) }
        ensures err_outs { OnErr result (outs.new ≡ outs.old) }
    {
        let Some(place) = self.stream.place(name) else {
            return Ok(Reply::Refused(no_consumer(self.alloc)?));
        };
        let last = self.stream.last();
        self.stream.drop_consumer(place, outs)?;
        self.loose = Span::up_to(last);
        Ok(Reply::Done)
    }

    /// An acknowledgement, at the stream's moment. An `Err` changes nothing and adds nothing.
    pub fn ack(
        &mut self,
        ack: &Ack,
        reply: Option<&Blob>,
        outs: &mut Outs,
    ) -> Result<Acknowledged, NoMemory>
        ensures answers { IfOk result (λ told. Answers (ack_answer self.old (option_copied reply.entry) ack.now.seq ack.now.kind (by_name self.old.consumers ack.now.consumer)) told.reply outs.old outs.new self.new) }
        ensures ended { IfOk result (λ told. told.ended ≡ ends_if ack.now.seq ack.now.kind (by_name self.old.consumers ack.now.consumer)) }
        ensures due { IfOk result (λ told. told.due ≡ due_if self.old.moment ack.now.seq ack.now.kind (by_name self.old.consumers ack.now.consumer)) }
        ensures settled { trim self.new ≡ self.new }
        ensures err { OnErr result (self.new ≡ self.old) }
        ensures err_outs { OnErr result (outs.new ≡ outs.old) }
    {
        let Some(place) = self.stream.place(&ack.consumer) else {
            return Ok(Acknowledged::of_nothing());
        };
        let told = self.stream.ack(place, ack, reply, outs)?;
        self.loose = self.loose.join(told.loose);
        Ok(Acknowledged {
            reply: told.reply,
            ended: told.ended,
            due: told.due,
        })
    }

    /// A pull of the consumer of a name, at the stream's moment. `Nobody` if there is none. An `Err` changes nothing and adds nothing.
    pub fn pull(
        &mut self,
        name: &Blob,
        reply: Option<&Blob>,
        ask: Option<Ask>,
        outs: &mut Outs,
    ) -> Result<Reply, NoMemory>
        ensures answers { IfOk result (λ told. Answers (pull_answer self.old (option_copied reply.entry) ask (by_name self.old.consumers name.now)) told outs.old outs.new self.new) }
        ensures settled { trim self.new ≡ self.new }
        ensures err { OnErr result (self.new ≡ self.old) }
        ensures err_outs { OnErr result (outs.new ≡ outs.old) }
    {
        let Some(place) = self.stream.place(name) else {
            return Ok(Reply::Nobody);
        };
        self.stream.pull(place, reply, ask, outs)?;
        Ok(Reply::Silent)
    }
}
