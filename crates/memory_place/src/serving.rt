//! Deliveries to the consumers of a stream.

ghost use Rattle.std.specs.Prelude.{◌≡◌, ◌<◌, true, Some, length, option_map, slice_get, unwrap_or, IfOk, OnErr, OnOk};
ghost use Rattle.std.specs.Option.{option_to_list};
ghost use Rattle.js_model.specs.declared.stream.State.TheVariants.{Live};
ghost use Rattle.js_model.specs.Streams.{by_name};
ghost use Rattle.js_model.specs.Trim.{trim};
ghost use Rattle.effects.specs.Effects.{sent_effects};
ghost use Rattle.followed_stream.specs.Delivering.{AreCurrent};
ghost use Rattle.memory_place.specs.Answers.{MayDeliver};
ghost use Rattle.memory_place.specs.Recording.{TellsSent};
ghost use Rattle.place_records.specs.Records.{effects_in, IsFreshOwn};
ghost use Rattle.stream_state.specs.Serving.{is_ready_if, Serves};

use crate::live_stream::LiveStream;
use crate::recording::sent_effect;
use js_base::{Blob, Moment, NoMemory, Outs};
use js_model::{Delivery, Listening};
use place_engine::Left;
use place_records::{Made, OwnRecords};
use stream_view::View;

impl LiveStream {
    /// Makes one delivery at a moment, adds what it sends, and records it. `None` exactly if no consumer is ready, and then nothing changes. An `Err`
    /// says what is left.
    pub fn deliver_one(
        &mut self,
        now: Moment,
        listening: &Listening,
        outs: &mut Outs,
        made: &mut Made,
    ) -> Result<Option<Delivery>, Left>
        ensures delivers { MayDeliver result (Live self.old) now listening.now outs.old outs.new (Live self.new) }
        ensures recorded { TellsSent result (Live self.old) now (Live self.new) (effects_in made.new) }
    {
        made.clear();
        let Some(place) = self.state.next_ready(now, listening) else {
            return Ok(None);
        };
        let Ok(()) = self.start(made) else {
            return Err(Left::Nothing);
        };
        let Ok(()) = self.pass(now, outs, &mut made.time) else {
            return Err(Left::Nothing);
        };
        let sent = self.serve(place, listening, outs, &mut made.own);
        self.release(&mut made.own);
        match sent {
            Ok(delivery) => Ok(Some(delivery)),
            Err(NoMemory) => Err(Left::Ticked),
        }
    }

    /// Makes a delivery to the consumer at a place, which is ready, at the stream's moment, and records it. An `Err` changes nothing and adds nothing.
    fn serve(
        &mut self,
        place: usize,
        listening: &Listening,
        outs: &mut Outs,
        own: &mut OwnRecords,
    ) -> Result<Delivery, NoMemory>
        requires current { AreCurrent self.old }
        requires ready { is_ready_if self.old listening.now (slice_get self.old.consumers place) ≡ true }
        requires fresh { IsFreshOwn own.old }
        ensures served { IfOk result (λ made. Serves self.old place listening.now made outs.old outs.new self.new) }
        ensures recorded { IfOk result (λ made. option_to_list own.new.effect ≡ sent_effects self.old made.what (by_name self.old.consumers made.consumer)) }
        ensures removed { own.new.removed ≡ own.old.removed }
        ensures messages { self.new.messages ≡ self.old.messages }
        ensures trimmed { OnOk result (trim self.new ≡ self.new) }
        ensures err { OnErr result (self.new ≡ self.old) }
        ensures err_outs { OnErr result (outs.new ≡ outs.old) }
        ensures err_own { OnErr result (own.new ≡ own.old) }
    {
        let name = self.name_of(place)?;
        let wait = self.ack_wait(&name);
        let Some(delivery) = self.state.deliver(place, listening, outs)? else {
            unreachable!()
        };
        let due = self.state.moment().plus(wait);
        own.record(sent_effect(name, delivery.what, due));
        Ok(delivery)
    }

    /// The name of the consumer at a place.
    fn name_of(&self, place: usize) -> Result<Blob, NoMemory>
        requires there { place < length self.now.consumers }
        ensures value { IfOk result (λ name. option_map (λ c. c.name) (slice_get self.now.consumers place) ≡ Some name) }
    {
        let Some(name) = self.state.name_at(place) else {
            unreachable!()
        };
        Ok(name.clone()?)
    }

    /// For how long a delivery to the consumer of a name waits; 0 if there is none.
    fn ack_wait(&self, name: &Blob) -> u64
        ensures value { result ≡ unwrap_or (option_map (λ c. c.config.ack_wait) (by_name self.now.consumers name.now)) 0 }
    {
        match self.state.consumer_config(name) {
            Some(config) => config.ack_wait,
            None => 0,
        }
    }
}
