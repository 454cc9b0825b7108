//! A stream as the records of a log have made it so far.

ghost use Rattle.std.specs.Prelude.{◌≡◌, ℕ, ◌+◌, ◌≤◌, IfOk, IsTrue, OnOk, OnErr};
ghost use Rattle.std.specs.Bool.{OnTrue};
ghost use Rattle.js_model.specs.Configs.{is_stream_config};
ghost use Rattle.js_model.specs.Lists.{Between};
ghost use Rattle.model_laws.specs.Bounds.{IsNumber};
ghost use Rattle.message_store.specs.Stored.{IsSmall};
ghost use Rattle.dedup_window.specs.Window.{IsLatest};
ghost use Rattle.effects.specs.Folding.{added_id, at_moment, empty_body, is_next, numbered, put, removed};
ghost use Rattle.log_replay.specs.Made.{KeepsStorable};
ghost use Rattle.log_replay.specs.Taken.{IsNewId, IsNextMessage, IsNextNumber};

use crate::consumers::forget_all;
use crate::listing::consumers_of;
use crate::removing::remove_range;
use dedup_window::{DedupWindow, WindowFault};
use effects::Body;
use js_base::{Blob, Moment, NoMemory};
use js_model::{Message, StreamConfig};
use message_store::MessageStore;
use replayed_consumer::ReplayedConsumer;
use std::alloc::Global;
use std::marker::Model;

/// The greatest number of messages of a stream.
const MOST_MESSAGES: u64 = 1 << 24;

/// The greatest number of ids in a stream's window.
const MOST_IDS: u64 = 1 << 20;

/// How many bytes an id has at most.
const LONGEST_ID: usize = 256;

/// A stream as the records of a log have made it so far. A record costs the logarithm of what there is, and for a consumer beside that the number of
/// consumers.
#[derive(Drop)]
pub(crate) struct ReplayedBody {
    pub(crate) made: Moment,
    pub(crate) moment: Moment,
    pub(crate) last: u64,
    pub(crate) config: StreamConfig,
    pub(crate) messages: MessageStore,
    pub(crate) ids: DedupWindow,
    pub(crate) consumers: Vec<ReplayedConsumer>,
}

impl Model for ReplayedBody {
    ghost use Rattle.effects.specs.declared.durable.Body.{Body as Made};
    ghost use Rattle.log_replay.specs.Kept.{IsKept, shown};

    ghost Value = { Made };

    ghost view = { λ b. shown b.made b.moment b.last b.config b.messages b.ids b.consumers.items };

    ghost invariant = { λ b. IsKept b.config b.moment b.ids };
}

/// Adds an id, if it is not empty.
fn add_id(ids: &mut DedupWindow, id: &Blob, seq: u64, at: Moment) -> Result<(), NoMemory>
    requires new { IsNewId ids.old.ids id.now }
    requires latest { IsLatest at ids.old.ids }
    ensures ok { OnOk result (ids.new ≡ record ids.old { ids = added_id ids.old.ids id.now seq at }) }
    ensures err { OnErr result (ids.new ≡ ids.old) }
{
    if id.is_empty() {
        return Ok(());
    }
    match ids.add(id, seq, at) {
        Ok(()) => Ok(()),
        Err(WindowFault::NoMemory) => Err(NoMemory),
        Err(WindowFault::Full) => unreachable!(),
    }
}

impl ReplayedBody {
    /// A new stream. It takes no memory.
    pub(crate) fn empty(alloc: Global, made: Moment, config: StreamConfig) -> ReplayedBody
        ensures value { result ≡ empty_body made config }
    {
        let ids = DedupWindow::new(alloc, config.duplicate_window);
        ReplayedBody {
            made,
            moment: made,
            last: 0,
            config,
            messages: MessageStore::new(alloc),
            ids,
            consumers: Vec::new(alloc),
        }
    }

    /// The stream with its messages, ids and consumers in lists.
    pub(crate) fn into_body(self, alloc: Global) -> Result<Body, NoMemory>
        ensures value { IfOk result (λ body. body ≡ self) }
    {
        let messages = self.messages.to_list(alloc)?;
        let ids = self.ids.to_list(alloc)?;
        let consumers = consumers_of(alloc, self.consumers)?;
        Ok(Body {
            made: self.made,
            moment: self.moment,
            last: self.last,
            config: self.config,
            messages,
            ids,
            consumers,
        })
    }

    /// Whether an id may be added.
    fn takes_id(&self, id: &Blob) -> bool
        ensures new { OnTrue result (IsNewId self.now.ids id.now) }
    {
        if id.is_empty() {
            return true;
        }
        if id.len() > LONGEST_ID {
            return false;
        }
        if self.ids.len() >= MOST_IDS {
            return false;
        }
        self.ids.seq_of(id.as_slice()).is_none()
    }

    /// Whether the sequence is the next, the moment the last that was seen, and the id may be added.
    pub(crate) fn takes_number(&self, seq: u64, at: Moment, id: &Blob) -> bool
        ensures next { OnTrue result (IsNextNumber self.now seq at id.now) }
    {
        if self.last.checked_add(1) != Some(seq) {
            return false;
        }
        if at != self.moment {
            return false;
        }
        self.takes_id(id)
    }

    /// Whether a message may be stored as the next.
    pub(crate) fn takes_message(&self, seq: u64, at: Moment, id: &Blob) -> bool
        ensures next { OnTrue result (IsNextMessage self.now seq at id.now) }
    {
        if self.messages.len() >= MOST_MESSAGES {
            return false;
        }
        self.takes_number(seq, at, id)
    }

    /// Gives the next sequence to a message that is not kept, with its id.
    pub(crate) fn skip(&mut self, seq: u64, at: Moment, id: &Blob) -> Result<(), NoMemory>
        requires number { IsNumber seq }
        requires next { IsNextNumber self.old seq at id.now }
        ensures ok { OnOk result (self.new ≡ numbered seq at id.now self.old) }
        ensures keeps { OnOk result (KeepsStorable self.old self.new) }
    {
        add_id(&mut self.ids, id, seq, at)?;
        self.last = seq;
        Ok(())
    }

    /// Stores a message under the next sequence, with its id.
    pub(crate) fn put(&mut self, message: Message, id: &Blob) -> Result<(), NoMemory>
        requires number { IsNumber message.seq }
        requires small { IsSmall message }
        requires next { IsNextMessage self.old message.seq message.at id.now }
        requires ascend { Between (λ m. m.seq) 1 (self.old.last + 1) self.old.messages }
        ensures ok { OnOk result (self.new ≡ put message id.now self.old) }
        ensures keeps { OnOk result (KeepsStorable self.old self.new) }
    {
        add_id(&mut self.ids, id, message.seq, message.at)?;
        self.last = message.seq;
        self.messages.push(message)
    }

    /// Drops the messages of a range of sequences, with what consumers hold of them.
    pub(crate) fn remove(&mut self, low: u64, high: u64)
        requires ascend { (end : ℕ) × Between (λ m. m.seq) 1 end self.old.messages }
        ensures value { self.new ≡ removed low high self.old }
        ensures keeps { KeepsStorable self.old self.new }
    {
        remove_range(&mut self.messages, low, high);
        forget_all(self.consumers.as_mut_slice(), low, high);
    }

    /// Sees a moment, by which ids are forgotten.
    pub(crate) fn see(&mut self, moment: Moment)
        requires later { self.old.moment ≤ moment }
        ensures value { self.new ≡ at_moment moment self.old }
        ensures keeps { KeepsStorable self.old self.new }
    {
        // A moment is below 2^62.
        let _ = moment.as_nanos();
        self.ids.expire(moment);
        self.moment = moment;
    }

    /// Another configuration.
    pub(crate) fn set_config(&mut self, config: StreamConfig)
        requires valid { IsTrue (is_stream_config config) }
        ensures value { self.new ≡ record self.old { config = config } }
        ensures keeps { KeepsStorable self.old self.new }
    {
        self.ids.set_window(config.duplicate_window);
        self.config = config;
    }
}
