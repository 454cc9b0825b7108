//! What one consumer of a stream is asked.

ghost use Rattle.std.specs.Prelude.{◌≡◌, ◌++◌, IfOk, OnOk, OnErr};
ghost use Rattle.std.specs.List.{list_any};
ghost use Rattle.std.specs.Option.{option_copied};
ghost use Rattle.js_model.specs.declared.stream.Stream.{Stream};
ghost use Rattle.js_model.specs.Advance.{consumer_outs, is_spent};
ghost use Rattle.js_model.specs.Counts.{consumer_info, info_of, pending_count};
ghost use Rattle.js_model.specs.Events.{farewells};
ghost use Rattle.js_model.specs.Pulls.{pulled, pull_outs};
ghost use Rattle.followed_stream.specs.Asked.{IsAcked};

use crate::ending::end_acked;
use crate::follower::Follower;
use crate::span::Span;
use consumer_state::{law_acknowledged, law_before_ending};
use js_base::{Blob, Moment, NoMemory, Outs};
use js_model::{Ack, Ask, ConsumerInfo, Info, Reply, copy_consumer_config};

/// What came of an acknowledgement.
#[derive(Drop)]
pub struct Acked {
    pub reply: Reply,
    /// Whether a delivery that waited or was given up has ended.
    pub ended: bool,
    /// The moment at which the delivery is due again, if that was another moment before.
    pub due: Option<Moment>,
    /// What is outside it is needed as before.
    pub loose: Span,
}

impl Follower {
    /// Takes an acknowledgement at a moment. An `Err` changes nothing and adds nothing.
    pub(crate) fn ack(
        &mut self,
        ack: &Ack,
        reply: Option<&Blob>,
        now: Moment,
        outs: &mut Outs,
    ) -> Result<Acked, NoMemory>
        ensures acked { IfOk result (λ told. IsAcked now (option_copied reply.entry) ack.now.seq ack.now.kind self.old told outs.old outs.new self.new) }
        ensures err { OnErr result (self.new ≡ self.old) }
        ensures err_outs { OnErr result (outs.new ≡ outs.old) }
    {
        law_acknowledged();
        law_before_ending();
        let due = self.consumer.changed_due(ack, now);
        let told = self.consumer.ack(ack, reply, now, outs)?;
        let ended = end_acked(&mut self.consumer, ack);
        Ok(Acked {
            reply: told,
            ended: ended.some,
            due,
            loose: ended.loose,
        })
    }

    /// Lets a pull wait from a moment on, or tells why it is refused. An `Err` changes nothing and adds nothing.
    pub(crate) fn pull(
        &mut self,
        reply: Option<&Blob>,
        ask: Option<Ask>,
        now: Moment,
        outs: &mut Outs,
    ) -> Result<(), NoMemory>
        ensures ok { OnOk result (self.new ≡ record self.old { consumer = pulled now (option_copied reply.entry) ask self.old.consumer }) }
        ensures outs { OnOk result (outs.new ≡ outs.old ++ pull_outs (option_copied reply.entry) ask self.old.consumer) }
        ensures err { OnErr result (self.new ≡ self.old) }
        ensures err_outs { OnErr result (outs.new ≡ outs.old) }
    {
        self.consumer.pull(reply, ask, now, outs)
    }

    /// Tells each waiting pull that the consumer is gone. An `Err` adds nothing.
    pub fn tell_dropped(&self, outs: &mut Outs) -> Result<(), NoMemory>
        ensures ok { OnOk result (outs.new ≡ outs.old ++ farewells self.now.consumer) }
        ensures err { OnErr result (outs.new ≡ outs.old) }
    {
        self.consumer.tell_dropped(outs)
    }

    /// Whether letting time pass up to a moment gives up some of its deliveries.
    pub fn has_spent(&self, now: Moment) -> bool
        ensures value { result ≡ list_any (is_spent now self.now.consumer) self.now.consumer.pending }
    {
        self.consumer.has_spent(now)
    }

    /// Adds what it sends by a moment. An `Err` adds nothing.
    pub fn tell_advance(&self, now: Moment, outs: &mut Outs) -> Result<(), NoMemory>
        ensures ok { OnOk result (outs.new ≡ outs.old ++ consumer_outs now self.now.consumer) }
        ensures err { OnErr result (outs.new ≡ outs.old) }
    {
        self.consumer.tell_advance(now, outs)
    }

    /// The numbers of its information.
    pub fn numbers(&self) -> Info
        ensures value { (s : Stream) → self.now.undelivered ≡ pending_count s self.now.consumer → result ≡ info_of s self.now.consumer }
    {
        self.consumer.info(self.undelivered)
    }

    /// Its information as a consumer of the stream of this name.
    pub fn info(&self, stream: &Blob) -> Result<ConsumerInfo, NoMemory>
        ensures value { (s : Stream) → s.config.name ≡ stream.now → self.now.undelivered ≡ pending_count s self.now.consumer → IfOk result (λ info. info ≡ consumer_info s self.now.consumer) }
    {
        Ok(ConsumerInfo {
            stream: stream.clone()?,
            name: self.consumer.name().clone()?,
            made: self.consumer.made(),
            config: copy_consumer_config(self.consumer.config())?,
            info: self.numbers(),
        })
    }
}
