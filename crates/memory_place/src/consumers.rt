//! What the consumers of a stream are asked.

ghost use Rattle.std.specs.Prelude.{◌≡◌, [], false, true, None, Option, option_map, unwrap_or, IfOk, IsTrue, OnErr, OnOk};
ghost use Rattle.std.specs.Option.{option_copied};
ghost use Rattle.js_base.specs.Bytes.{Bytes};
ghost use Rattle.js_model.specs.declared.stream.State.TheVariants.{Live};
ghost use Rattle.js_model.specs.Configs.{is_consumer_config, is_name, same_consumer_config};
ghost use Rattle.js_model.specs.Consumers.{making_checks, queue_checks};
ghost use Rattle.js_model.specs.Events.{ack_answer, consumer_asked, consumer_dropped, consumer_made, consumer_told, infos_told, names_told, pull_answer, settled};
ghost use Rattle.js_model.specs.Refusals.{consumer_exists, first_refusal};
ghost use Rattle.js_model.specs.Streams.{by_name};
ghost use Rattle.js_model.specs.Trim.{trim};
ghost use Rattle.effects.specs.Effects.{live_effects, settle_effects};
ghost use Rattle.place_engine.specs.Shown.{IsShown};
ghost use Rattle.memory_place.specs.Answers.{Acts, ActsQuietly};
ghost use Rattle.memory_place.specs.Needing.{makes_consumer};
ghost use Rattle.memory_place.specs.Recording.{own_then, TellsFault};
ghost use Rattle.place_records.specs.Records.{IsFreshOwn};
ghost use Rattle.stream_state.specs.Removing.{HasRoom, HasRoomForOne};

use crate::live_stream::LiveStream;
use crate::recording::{ack_effect, drop_effect};
use crate::sameness::same_consumer_config;
use consumer_state::MakeFault;
use effects::Effect;
use js_base::{ApiError, Blob, NoMemory, Outs};
use js_model::refusals::{consumer_absent, consumer_exists as exists_already, no_consumer};
use js_model::{Ack, AckPolicy, Ask, ConsumerConfig, Reply, What, copy_consumer_config};
use place_records::OwnRecords;
use stream_state::{Acknowledged, NewConsumer};
use stream_view::View;

impl LiveStream {
    /// Makes a consumer, if there is none of the name. One that is there is shown if it has this configuration, and else refused; an update of one
    /// that is not there is refused.
    pub(crate) fn ask_consumer(
        &mut self,
        name: &Blob,
        config: &ConsumerConfig,
        update: bool,
        own: &mut OwnRecords,
    ) -> Result<Reply, NoMemory>
        requires name { IsTrue (is_name name.now) }
        requires valid { IsTrue (is_consumer_config config.now) }
        requires fresh { IsFreshOwn own.old }
        requires room { HasRoomForOne self.old own.old.removed }
        ensures acts { IfOk result (λ reply. ActsQuietly (consumer_asked self.old name.now config.now update true (by_name self.old.consumers name.now)) reply self.new) }
        ensures shown { IfOk result IsShown }
        ensures recorded { (to : Option Bytes) → OnOk result (own_then own.new self.new ≡ live_effects self.old (What.MakeConsumer to name.now config.now update) true) }
        ensures room { HasRoom self.new own.new.removed }
        ensures err { OnErr result (settled self.new ≡ settled self.old) }
        ensures err_recorded { OnErr result (own_then own.new self.new ≡ settle_effects [] (Live self.old)) }
    {
        self.state.holds();
        match self.is_same_consumer(name, config) {
            None if update => Ok(Reply::Refused(consumer_absent(self.alloc)?)),
            None => self.make_consumer(name, config, own),
            Some(true) => self.show_consumer(name, own),
            Some(false) => Ok(Reply::Refused(self.other_consumer(name, config)?)),
        }
    }

    /// Whether the consumer of a name has this configuration, if there is one.
    fn is_same_consumer(&self, name: &Blob, config: &ConsumerConfig) -> Option<bool>
        ensures value { result ≡ option_map (λ c. same_consumer_config config.now c.config) (by_name self.now.consumers name.now) }
    {
        let kept = self.state.consumer_config(name)?;
        Some(same_consumer_config(config, kept))
    }

    /// Whether such an asking makes a consumer: there is none of the name, and no rule forbids it.
    pub(crate) fn makes_consumer(
        &self,
        name: &Blob,
        config: &ConsumerConfig,
        update: bool,
    ) -> Result<bool, NoMemory>
        requires valid { IsTrue (is_consumer_config config.now) }
        ensures value { IfOk result (λ makes. makes ≡ makes_consumer self.now name.now config.now update (by_name self.now.consumers name.now)) }
    {
        if update || self.state.consumer_config(name).is_some() {
            return Ok(false);
        }
        match self.state.may_make(name, config) {
            Ok(()) => Ok(true),
            Err(MakeFault::Refused(_)) => Ok(false),
            Err(MakeFault::NoMemory) => Err(NoMemory),
        }
    }

    /// Makes a consumer of a name that none has.
    fn make_consumer(
        &mut self,
        name: &Blob,
        config: &ConsumerConfig,
        own: &mut OwnRecords,
    ) -> Result<Reply, NoMemory>
        requires name { IsTrue (is_name name.now) }
        requires valid { IsTrue (is_consumer_config config.now) }
        requires absent { by_name self.old.consumers name.now ≡ None }
        requires fresh { IsFreshOwn own.old }
        requires room { HasRoomForOne self.old own.old.removed }
        ensures acts { IfOk result (λ reply. ActsQuietly (consumer_made self.old name.now config.now (first_refusal (making_checks self.old name.now config.now))) reply self.new) }
        ensures shown { IfOk result IsShown }
        ensures recorded { (to : Option Bytes) → OnOk result (own_then own.new self.new ≡ live_effects self.old (What.MakeConsumer to name.now config.now false) true) }
        ensures room { HasRoom self.new own.new.removed }
        ensures err { OnErr result (settled self.new ≡ settled self.old) }
        ensures err_recorded { OnErr result (own_then own.new self.new ≡ settle_effects [] (Live self.old)) }
    {
        self.state.holds();
        let kept_name = name.clone()?;
        let kept_config = copy_consumer_config(config)?;
        self.make_recorded(name, config, kept_name, kept_config, own)
    }

    /// The same, with copies of its name and its configuration for the record.
    fn make_recorded(
        &mut self,
        name: &Blob,
        config: &ConsumerConfig,
        kept_name: Blob,
        kept_config: ConsumerConfig,
        own: &mut OwnRecords,
    ) -> Result<Reply, NoMemory>
        requires name { IsTrue (is_name name.now) }
        requires valid { IsTrue (is_consumer_config config.now) }
        requires kept_name { kept_name ≡ name.now }
        requires kept_config { kept_config ≡ config.now }
        requires trimmed { trim self.old ≡ self.old }
        requires absent { by_name self.old.consumers name.now ≡ None }
        requires fresh { IsFreshOwn own.old }
        requires room { HasRoomForOne self.old own.old.removed }
        ensures acts { IfOk result (λ reply. ActsQuietly (consumer_made self.old name.now config.now (first_refusal (making_checks self.old name.now config.now))) reply self.new) }
        ensures shown { IfOk result IsShown }
        ensures recorded { (to : Option Bytes) → OnOk result (own_then own.new self.new ≡ live_effects self.old (What.MakeConsumer to name.now config.now false) true) }
        ensures room { HasRoom self.new own.new.removed }
        ensures err { OnErr result (settled self.new ≡ settled self.old) }
        ensures err_recorded { OnErr result (own_then own.new self.new ≡ settle_effects [] (Live self.old)) }
    {
        let moment = self.state.moment();
        let made = self.state.make_consumer(name, config, &mut own.removed);
        self.state.holds();
        let new = match made {
            Ok(new) => new,
            Err(fault) => return give_up(fault, kept_name, kept_config),
        };
        let NewConsumer {
            info,
            cursor,
            picks,
        } = new;
        own.record(Some(Effect::MakeConsumer {
            name: kept_name,
            made: moment,
            config: kept_config,
            cursor,
            picks,
        }));
        Ok(Reply::ConsumerInfo(info))
    }

    /// Why a consumer that is there is not given another configuration.
    fn other_consumer(&self, name: &Blob, config: &ConsumerConfig) -> Result<ApiError, NoMemory>
        ensures value { IfOk result (λ refusal. refusal ≡ unwrap_or (first_refusal (queue_checks self.now name.now config.now)) consumer_exists) }
    {
        match self.state.queue_refusal(name, config)? {
            Some(refusal) => Ok(refusal),
            None => exists_already(self.alloc),
        }
    }

    /// Drops a consumer. Refused if there is none.
    pub(crate) fn drop_consumer(
        &mut self,
        name: &Blob,
        outs: &mut Outs,
        own: &mut OwnRecords,
    ) -> Result<Reply, NoMemory>
        requires fresh { IsFreshOwn own.old }
        requires room { HasRoomForOne self.old own.old.removed }
        ensures acts { IfOk result (λ reply. Acts (consumer_dropped self.old (by_name self.old.consumers name.now)) reply outs.old outs.new self.new) }
        ensures shown { IfOk result IsShown }
        ensures recorded { (to : Option Bytes) → OnOk result (own_then own.new self.new ≡ live_effects self.old (What.DropConsumer to name.now) true) }
        ensures room { HasRoom self.new own.new.removed }
        ensures err { OnErr result (settled self.new ≡ settled self.old) }
        ensures err_outs { OnErr result (outs.new ≡ outs.old) }
        ensures err_recorded { OnErr result (own_then own.new self.new ≡ settle_effects [] (Live self.old)) }
    {
        self.state.holds();
        let kept_name = name.clone()?;
        let is_there = self.state.consumer_config(name).is_some();
        let reply = self.state.drop_consumer(name, outs)?;
        own.record(drop_effect(kept_name, is_there));
        Ok(reply)
    }

    /// Takes an acknowledgement.
    pub(crate) fn ack(
        &mut self,
        ack: &Ack,
        reply: Option<&Blob>,
        outs: &mut Outs,
        own: &mut OwnRecords,
    ) -> Result<Reply, NoMemory>
        requires fresh { IsFreshOwn own.old }
        requires room { HasRoomForOne self.old own.old.removed }
        ensures acts { IfOk result (λ told. Acts (ack_answer self.old (option_copied reply.entry) ack.now.seq ack.now.kind (by_name self.old.consumers ack.now.consumer)) told outs.old outs.new self.new) }
        ensures shown { IfOk result IsShown }
        ensures recorded { OnOk result (own_then own.new self.new ≡ live_effects self.old (What.Ack (option_copied reply.entry) ack.now) true) }
        ensures room { HasRoom self.new own.new.removed }
        ensures err { OnErr result (settled self.new ≡ settled self.old) }
        ensures err_outs { OnErr result (outs.new ≡ outs.old) }
        ensures err_recorded { OnErr result (own_then own.new self.new ≡ settle_effects [] (Live self.old)) }
    {
        self.state.holds();
        let name = ack.consumer.clone()?;
        let policy = self.ack_policy(&ack.consumer);
        let Acknowledged {
            reply: told,
            ended,
            due,
        } = self.state.ack(ack, reply, outs)?;
        own.record(ack_effect(name, policy, ack, ended, due));
        Ok(told)
    }

    /// The policy of the consumer of a name; if there is none, that of one whose deliveries are not acknowledged.
    fn ack_policy(&self, name: &Blob) -> AckPolicy
        ensures value { result ≡ unwrap_or (option_map (λ c. c.config.ack_policy) (by_name self.now.consumers name.now)) AckPolicy.None }
    {
        match self.state.consumer_config(name) {
            Some(config) => config.ack_policy,
            None => AckPolicy::None,
        }
    }

    /// Lets a pull wait.
    pub(crate) fn pull(
        &mut self,
        name: &Blob,
        reply: Option<&Blob>,
        ask: Option<Ask>,
        outs: &mut Outs,
        own: &mut OwnRecords,
    ) -> Result<Reply, NoMemory>
        requires fresh { IsFreshOwn own.old }
        requires room { HasRoomForOne self.old own.old.removed }
        ensures acts { IfOk result (λ told. Acts (pull_answer self.old (option_copied reply.entry) ask (by_name self.old.consumers name.now)) told outs.old outs.new self.new) }
        ensures shown { IfOk result IsShown }
        ensures recorded { OnOk result (own_then own.new self.new ≡ live_effects self.old (What.Pull (option_copied reply.entry) name.now ask) true) }
        ensures room { HasRoom self.new own.new.removed }
        ensures err { OnErr result (settled self.new ≡ settled self.old) }
        ensures err_outs { OnErr result (outs.new ≡ outs.old) }
        ensures err_recorded { OnErr result (own_then own.new self.new ≡ settle_effects [] (Live self.old)) }
    {
        self.state.holds();
        let told = self.state.pull(name, reply, ask, outs)?;
        Ok(told)
    }

    /// Shows a consumer. Refused if there is none.
    pub(crate) fn show_consumer(
        &mut self,
        name: &Blob,
        own: &mut OwnRecords,
    ) -> Result<Reply, NoMemory>
        requires fresh { IsFreshOwn own.old }
        requires room { HasRoomForOne self.old own.old.removed }
        ensures acts { IfOk result (λ reply. ActsQuietly (consumer_told self.old name.now) reply self.new) }
        ensures shown { IfOk result IsShown }
        ensures recorded { own_then own.new self.new ≡ settle_effects [] (Live self.old) }
        ensures room { HasRoom self.new own.new.removed }
        ensures err { OnErr result (settled self.new ≡ settled self.old) }
    {
        self.release(own);
        self.state.holds();
        match self.state.consumer_info(name)? {
            Some(info) => Ok(Reply::ConsumerInfo(info)),
            None => Ok(Reply::Refused(no_consumer(self.alloc)?)),
        }
    }

    /// A page of the consumers' names.
    pub(crate) fn list_names(&self, offset: u64) -> Result<Reply, NoMemory>
        ensures acts { IfOk result (λ reply. ActsQuietly (names_told self.now offset) reply self.now) }
        ensures shown { IfOk result IsShown }
    {
        self.state.holds();
        Ok(Reply::Names {
            total: self.state.consumer_count(),
            list: self.state.consumer_names(offset)?,
        })
    }

    /// A page of the consumers' informations.
    pub(crate) fn list_consumers(
        &mut self,
        offset: u64,
        own: &mut OwnRecords,
    ) -> Result<Reply, NoMemory>
        requires fresh { IsFreshOwn own.old }
        requires room { HasRoomForOne self.old own.old.removed }
        ensures acts { IfOk result (λ reply. ActsQuietly (infos_told self.old offset) reply self.new) }
        ensures shown { IfOk result IsShown }
        ensures recorded { own_then own.new self.new ≡ settle_effects [] (Live self.old) }
        ensures room { HasRoom self.new own.new.removed }
        ensures err { OnErr result (settled self.new ≡ settled self.old) }
    {
        let total = self.state.consumer_count();
        self.release(own);
        self.state.holds();
        Ok(Reply::Infos {
            total,
            list: self.state.consumer_infos(offset)?,
        })
    }
}

/// Lets go of the copies for a consumer that was not made, and tells why it was not.
fn give_up(fault: MakeFault, _name: Blob, _config: ConsumerConfig) -> Result<Reply, NoMemory>
    ensures told { TellsFault fault result }
{
    match fault {
        MakeFault::Refused(refusal) => Ok(Reply::Refused(refusal)),
        MakeFault::NoMemory => Err(NoMemory),
    }
}
