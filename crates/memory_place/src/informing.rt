//! What is told of the stream of a place, and its configuration.

ghost use Rattle.std.specs.Prelude.{◌≡◌, ◌≤◌, ◌<◌, ◌==◌, [], true, Option, length, if◌then◌else◌, IfOk, IsTrue, OnErr, OnOk};
ghost use Rattle.js_base.specs.Bytes.{Bytes};
ghost use Rattle.js_model.specs.declared.stream.State.TheVariants.{Live};
ghost use Rattle.js_model.specs.Configs.{is_stream_config};
ghost use Rattle.js_model.specs.Counts.{stream_info};
ghost use Rattle.js_model.specs.Events.{changed, made_again, settled, stream_told};
ghost use Rattle.js_model.specs.Streams.{first_seq};
ghost use Rattle.effects.specs.Effects.{live_effects, settle_effects};
ghost use Rattle.place_engine.specs.Shown.{IsShown, IsSoundInfo};
ghost use Rattle.memory_place.specs.Answers.{ActsQuietly};
ghost use Rattle.memory_place.specs.Recording.{own_then};
ghost use Rattle.place_records.specs.Records.{IsFreshOwn};
ghost use Rattle.stream_state.specs.Removing.{HasRoom, HasRoomForOne};

use crate::live_stream::LiveStream;
use crate::recording::change_effect;
use crate::sameness::{same_retention, same_stream_config};
use js_base::NoMemory;
use js_model::refusals::{other_config, retention_cannot_change};
use js_model::{Reply, StreamConfig, StreamInfo, What, copy_stream_config};
use place_records::OwnRecords;
use stream_view::View;

impl LiveStream {
    /// Makes a stream that is there: it is shown if it has this configuration, and refused if it has another.
    pub(crate) fn make_again(
        &mut self,
        config: &StreamConfig,
        own: &mut OwnRecords,
    ) -> Result<Reply, NoMemory>
        requires fresh { IsFreshOwn own.old }
        requires room { HasRoomForOne self.old own.old.removed }
        ensures acts { IfOk result (λ reply. ActsQuietly (made_again self.old config.now) reply self.new) }
        ensures shown { IfOk result IsShown }
        ensures recorded { own_then own.new self.new ≡ settle_effects [] (Live self.old) }
        ensures room { HasRoom self.new own.new.removed }
        ensures err { OnErr result (settled self.new ≡ settled self.old) }
    {
        if same_stream_config(config, self.state.config()) {
            self.show(own)
        } else {
            self.state.holds();
            Ok(Reply::Refused(other_config(self.alloc)?))
        }
    }

    /// Replaces the configuration. The messages that the new limits drop go. Refused if the retention is another one.
    pub(crate) fn change(
        &mut self,
        config: &StreamConfig,
        own: &mut OwnRecords,
    ) -> Result<Reply, NoMemory>
        requires valid { IsTrue (is_stream_config config.now) }
        requires fresh { IsFreshOwn own.old }
        requires room { HasRoomForOne self.old own.old.removed }
        ensures acts { IfOk result (λ reply. ActsQuietly (changed self.old config.now true) reply self.new) }
        ensures shown { IfOk result IsShown }
        ensures recorded { (to : Option Bytes) → OnOk result (own_then own.new self.new ≡ live_effects self.old (What.Change to config.now) true) }
        ensures room { HasRoom self.new own.new.removed }
        ensures err { OnErr result (settled self.new ≡ settled self.old) }
        ensures err_recorded { OnErr result (own_then own.new self.new ≡ settle_effects [] (Live self.old)) }
    {
        self.state.holds();
        if !same_retention(config.retention, self.state.config().retention) {
            return Ok(Reply::Refused(retention_cannot_change(self.alloc)?));
        }
        let kept = copy_stream_config(self.alloc, config)?;
        let told = copy_stream_config(self.alloc, config)?;
        let recorded = copy_stream_config(self.alloc, config)?;
        let is_same = same_stream_config(config, self.state.config());
        own.record(change_effect(recorded, is_same));
        self.state.change(kept, &mut own.removed);
        self.release(own);
        Ok(Reply::Info(self.info_with(told)))
    }

    /// Shows its information.
    pub(crate) fn show(&mut self, own: &mut OwnRecords) -> Result<Reply, NoMemory>
        requires fresh { IsFreshOwn own.old }
        requires room { HasRoomForOne self.old own.old.removed }
        ensures acts { IfOk result (λ reply. ActsQuietly (stream_told self.old) reply self.new) }
        ensures shown { IfOk result IsShown }
        ensures recorded { own_then own.new self.new ≡ settle_effects [] (Live self.old) }
        ensures room { HasRoom self.new own.new.removed }
        ensures err { OnErr result (settled self.new ≡ settled self.old) }
    {
        self.release(own);
        Ok(Reply::Info(self.info()?))
    }

    /// Its information, as it stands.
    pub fn info(&self) -> Result<StreamInfo, NoMemory>
        ensures value { IfOk result (λ info. info ≡ stream_info self.now) }
        ensures shown { IfOk result IsSoundInfo }
    {
        let config = copy_stream_config(self.alloc, self.state.config())?;
        Ok(self.info_with(config))
    }

    /// Its information, with a copy of its configuration.
    fn info_with(&self, config: StreamConfig) -> StreamInfo
        requires copy { config ≡ self.now.config }
        ensures value { result ≡ stream_info self.now }
        ensures shown { IsSoundInfo result }
    {
        self.state.holds();
        StreamInfo {
            config,
            made: self.state.made(),
            messages: self.state.count(),
            bytes: self.state.bytes(),
            first_seq: self.first_seq(),
            first_at: self.state.first().map(|message| message.at),
            last_seq: self.state.last(),
            last_at: self.state.last_message().map(|message| message.at),
            consumers: self.state.consumer_count(),
        }
    }

    /// The first stored sequence. If nothing is stored, it is the next one, and 0 if there never was a message.
    fn first_seq(&self) -> u64
        ensures value { result ≡ (if self.now.last == 0 then 0 else first_seq self.now) }
    {
        if self.state.last() == 0 {
            return 0;
        }
        match self.state.first() {
            Some(message) => message.seq,
            None => self.state.last() + 1,
        }
    }
}
