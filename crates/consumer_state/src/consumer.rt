//! A consumer as it is kept.

ghost use Rattle.std.specs.Prelude.{◌≡◌, IfOk};
ghost use Rattle.js_model.specs.declared.consumer.Consumer.{Consumer as Kept};
ghost use Rattle.js_model.specs.declared.stream.Stream.{Stream};
ghost use Rattle.js_model.specs.Counts.{info_of, pending_count};
ghost use Rattle.js_model.specs.Streams.{is_push, is_unacknowledged};
ghost use Rattle.consumer_need.specs.Needs.{awaits};
ghost use Rattle.consumer_progress.specs.Progresses.{progress_of, IsProgress};
ghost use Rattle.consumer_state.specs.Forgetting.{forgotten};
ghost use Rattle.consumer_state.specs.Keeping.{IsConsumer};
ghost use Rattle.consumer_state.specs.Passing.{overflow_of, without_overflow};

use consumer_need::{Need, passes};
use consumer_progress::ConsumerProgress;
use js_base::{Blob, List, Moment, NoMemory};
use js_model::{AckPolicy, ConsumerConfig, Info};
use pull_queue::PullQueue;
use std::alloc::Global;
use std::marker::Model;

/// A consumer of a stream. The cost of a call does not grow with what is stored; it grows with the logarithm of how many deliveries wait or are given up,
/// unless the call says otherwise.
#[derive(Drop)]
pub struct Consumer {
    pub(crate) alloc: Global,
    pub(crate) name: Blob,
    pub(crate) made: Moment,
    pub(crate) config: ConsumerConfig,
    pub(crate) progress: ConsumerProgress,
    pub(crate) pulls: PullQueue,
    pub(crate) mark: Moment,
}

impl Model for Consumer {
    ghost use Rattle.js_model.specs.declared.consumer.Consumer.{Consumer as Kept};
    ghost use Rattle.consumer_state.specs.Keeping.{kept_of, IsKept};

    ghost Value = { Kept };

    ghost view = { λ c. kept_of c.name c.made c.config c.progress c.pulls c.mark };

    ghost invariant = { λ c. IsKept c.name c.made c.config c.progress c.pulls c.mark };
}

impl Consumer {
    /// Its name.
    pub fn name(&self) -> &Blob
        ensures value { result.now ≡ self.now.name }
    {
        &self.name
    }

    /// The moment of its making.
    pub fn made(&self) -> Moment
        ensures value { result ≡ self.now.made }
    {
        self.made
    }

    /// Its configuration.
    pub fn config(&self) -> &ConsumerConfig
        ensures value { result.now ≡ self.now.config }
    {
        &self.config
    }

    /// The sequence from which on messages are still to be delivered.
    pub fn cursor(&self) -> u64
        ensures value { result ≡ self.now.cursor }
    {
        self.progress.cursor()
    }

    /// The sequences below the cursor that are still to be delivered, in their order.
    pub fn picks(&self) -> Result<List<u64>, NoMemory>
        ensures value { IfOk result (λ picks. picks ≡ self.now.picks) }
    {
        self.progress.picks()
    }

    /// Whether its messages go to a subject of its own.
    pub fn is_push(&self) -> bool
        ensures value { result ≡ is_push self.now }
    {
        !self.config.deliver_subject.is_empty()
    }

    /// Whether its deliveries wait for no acknowledgement.
    pub(crate) fn is_unacknowledged(&self) -> bool
        ensures value { result ≡ is_unacknowledged self.now }
    {
        match self.config.ack_policy {
            AckPolicy::None => true,
            AckPolicy::All | AckPolicy::Explicit => false,
        }
    }

    /// What holds of every consumer. It does nothing.
    pub fn holds(&self)
        ensures consumer { IsConsumer self.now }
        ensures progress { IsProgress (progress_of self.now) }
    {
        let _cursor = self.progress.cursor();
    }

    /// Whether a message of this subject and this sequence is still to be delivered to it.
    pub fn awaits(&self, subject: &[u8], seq: u64) -> bool
        ensures value { result ≡ awaits self.now subject.now seq }
    {
        (self.progress.cursor() <= seq || self.progress.has_pick(seq)) && self.takes(subject)
    }

    /// Forgets the sequence, whose message is gone. It takes no memory.
    pub fn forget(&mut self, seq: u64)
        ensures value { self.new ≡ forgotten seq self.old }
    {
        self.progress.forget(seq);
    }

    /// Takes out the least sequence that is given up, if more than 65,536 are, and tells it. It takes no memory.
    pub fn overflow(&mut self) -> Option<u64>
        ensures value { result ≡ overflow_of self.old }
        ensures left { self.new ≡ without_overflow self.old }
    {
        self.progress.overflow()
    }

    /// Its numbers. `undelivered` is how many messages are still to be delivered to it.
    pub fn info(&self, undelivered: u64) -> Info
        ensures value { (s : Stream) → undelivered ≡ pending_count s self.now → result ≡ info_of s self.now }
    {
        Info {
            consumer_seq: self.progress.dseq(),
            stream_seq: self.progress.cursor().saturating_sub(1),
            ack_floor: self.progress.floor(),
            ack_pending: self.progress.ack_pending(),
            pending: undelivered,
            redelivered: self.progress.redelivered(),
            waiting: self.pulls.len(),
        }
    }
}

impl Need for Consumer {
    ghost consumer = { λ c. c };

    fn takes(&self, subject: &[u8]) -> bool {
        passes(self.config.filter_subject.as_slice(), subject)
    }

    fn needs(&self, subject: &[u8], seq: u64) -> bool {
        (self.progress.cursor() <= seq || self.progress.is_held(seq)) && self.takes(subject)
    }
}
