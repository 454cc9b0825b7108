//! What the consumers of a stream are asked, each by its place in the order of their names.

ghost use Rattle.std.specs.Prelude.{◌≡◌, ◌<◌, ◌≤◌, ◌++◌, Some, None, length, option_map, slice_get, IfOk, IfSome, OnOk, OnErr};
ghost use Rattle.std.specs.Option.{option_copied};
ghost use Rattle.js_model.specs.Advance.{stream_at};
ghost use Rattle.js_model.specs.Consumers.{with_new};
ghost use Rattle.js_model.specs.Counts.{consumer_info};
ghost use Rattle.js_model.specs.Streams.{by_name};
ghost use Rattle.consumer_need.specs.Stored.{HoldsStored};
ghost use Rattle.followed_stream.specs.Asked.{gives_up, AcksAt, DropsAt, PullsAt};
ghost use Rattle.followed_stream.specs.Attended.{IsAttended};
ghost use Rattle.followed_stream.specs.Delivering.{AreCurrent, IsReadyAt};
ghost use Rattle.followed_stream.specs.Handing.{MayHandAt};
ghost use Rattle.followed_stream.specs.Placing.{IsPlaceOf};

use crate::answering::Acked;
use crate::followed::FollowedStream;
use crate::follower::{Follower, place_before, place_of};
use crate::later::LaterFollowedStream;
use consumer_state::Consumer;
use js_base::{Blob, Moment, NoMemory, Outs};
use js_model::{Ack, Ask, ConsumerInfo, Delivered};
use stream_view::View;

impl FollowedStream {
    /// The place of the consumer of a name.
    pub fn place(&self, name: &Blob) -> Option<usize>
        ensures value { IsPlaceOf self.now.consumers name.now result }
    {
        place_of(self.followers.as_slice(), name)
    }

    /// The name of the consumer at a place.
    pub fn name_at(&self, place: usize) -> Option<&Blob>
        ensures value { option_copied result ≡ option_map (λ c. c.name) (slice_get self.now.consumers place) }
    {
        match self.followers.get(place) {
            Some(follower) => Some(follower.name()),
            None => None,
        }
    }

    /// Adds a consumer of a name that none has, at its place in the order of names. An `Err` changes nothing. It goes through the messages once.
    pub fn insert(&mut self, consumer: Consumer) -> Result<(), NoMemory>
        requires holds { HoldsStored self.old consumer }
        requires absent { by_name self.old.consumers consumer.name ≡ None }
        ensures ok { OnOk result (self.new ≡ record self.old { consumers = with_new self.old.consumers consumer }) }
        ensures sound { OnOk result (IsAttended self.new) }
        ensures err { OnErr result (self.new ≡ self.old) }
    {
        let place = place_before(self.followers.as_slice(), consumer.name());
        let follower = Follower::of(consumer, &self.stored);
        self.followers.insert(place, follower)?;
        Ok(())
    }

    /// Drops the consumer at a place, and tells its waiting pulls. An `Err` changes nothing and adds nothing.
    pub fn drop_consumer(&mut self, place: usize, outs: &mut Outs) -> Result<(), NoMemory>
        requires within { place < length self.old.consumers }
        ensures dropped { OnOk result (DropsAt self.old place outs.old outs.new self.new) }
        ensures sound { OnOk result (IsAttended self.new) }
        ensures err { OnErr result (self.new ≡ self.old) }
        ensures err_outs { OnErr result (outs.new ≡ outs.old) }
    {
        self.followers[place].tell_dropped(outs)?;
        self.followers.remove(place);
        Ok(())
    }

    /// Gives the consumer at a place an acknowledgement, at the stream's moment. An `Err` changes nothing and adds nothing.
    pub fn ack(
        &mut self,
        place: usize,
        ack: &Ack,
        reply: Option<&Blob>,
        outs: &mut Outs,
    ) -> Result<Acked, NoMemory>
        requires within { place < length self.old.consumers }
        ensures acked { IfOk result (λ told. AcksAt self.old place (option_copied reply.entry) ack.now.seq ack.now.kind told outs.old outs.new self.new) }
        ensures sound { OnOk result (IsAttended self.new) }
        ensures err { OnErr result (self.new ≡ self.old) }
        ensures err_outs { OnErr result (outs.new ≡ outs.old) }
    {
        let now = self.stored.moment();
        let follower = &mut self.followers[place];
        follower.ack(ack, reply, now, outs)
    }

    /// Lets a pull of the consumer at a place wait, at the stream's moment, or tells why it is refused. An `Err` changes nothing and adds nothing.
    pub fn pull(
        &mut self,
        place: usize,
        reply: Option<&Blob>,
        ask: Option<Ask>,
        outs: &mut Outs,
    ) -> Result<(), NoMemory>
        requires within { place < length self.old.consumers }
        ensures pulled { OnOk result (PullsAt self.old place (option_copied reply.entry) ask outs.old outs.new self.new) }
        ensures sound { OnOk result (IsAttended self.new) }
        ensures err { OnErr result (self.new ≡ self.old) }
        ensures err_outs { OnErr result (outs.new ≡ outs.old) }
    {
        let now = self.stored.moment();
        let follower = &mut self.followers[place];
        follower.pull(reply, ask, now, outs)
    }

    /// The information of the consumer at a place.
    pub fn info_at(&self, place: usize) -> Result<Option<ConsumerInfo>, NoMemory>
        ensures value { IfOk result (λ info. info ≡ option_map (consumer_info self.now) (slice_get self.now.consumers place)) }
    {
        let Some(follower) = self.followers.get(place) else {
            return Ok(None);
        };
        Ok(Some(follower.info(&self.stored.config().name)?))
    }

    /// Whether something can be delivered to the consumer at a place, if somebody listens to a push consumer's subject or nobody does.
    pub fn is_ready(&self, place: usize, listened: bool) -> bool
        requires current { AreCurrent self.now }
        ensures value { IsReadyAt self.now place listened result }
    {
        match self.followers.get(place) {
            Some(follower) => follower.is_ready(&self.stored, listened),
            None => false,
        }
    }

    /// Whether letting time pass up to a moment gives up some deliveries of the consumer at a place.
    pub fn has_spent(&self, place: usize, now: Moment) -> bool
        ensures value { result ≡ gives_up now (slice_get self.now.consumers place) }
    {
        match self.followers.get(place) {
            Some(follower) => follower.has_spent(now),
            None => false,
        }
    }

    /// Whether something can be delivered to the consumer at a place once time has passed up to a moment. It changes nothing, and takes no memory. To ask
    /// several consumers, ask `later` once.
    pub fn is_ready_by(&self, place: usize, now: Moment, listened: bool) -> bool
        ensures value { IsReadyAt (stream_at self.now now) place listened result }
    {
        self.later(now).is_ready(place, listened)
    }

    /// The stream as it is once time has passed up to a moment. It goes through the messages that are too old by then, and takes no memory.
    pub fn later(&self, now: Moment) -> LaterFollowedStream<'_>
        ensures value { result ≡ stream_at self.now now }
    {
        LaterFollowedStream::at(&self.stored, self.followers.as_slice(), now)
    }

    /// Makes one delivery to the consumer at a place. `None` exactly if it is not ready. An `Err` changes nothing and adds nothing.
    pub fn deliver(
        &mut self,
        place: usize,
        listened: bool,
        outs: &mut Outs,
    ) -> Result<Option<Delivered>, NoMemory>
        requires within { place < length self.old.consumers }
        requires current { AreCurrent self.old }
        ensures delivered { IfOk result (λ what. MayHandAt self.old place listened what outs.old outs.new self.new) }
        ensures sound { OnOk result (IsAttended self.new) }
        ensures err { OnErr result (self.new ≡ self.old) }
        ensures err_outs { OnErr result (outs.new ≡ outs.old) }
    {
        let follower = &mut self.followers[place];
        follower.deliver(&self.stored, listened, outs)
    }
}
