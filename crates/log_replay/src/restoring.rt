//! Replays that begin with what was written down.

ghost use Rattle.std.specs.Prelude.{◌≡◌, ◌↔◌, ◌≤◌, ◌<◌, ◌^◌, ◌∷◌, ◌++◌, [], None, ℕ, length, All, IfOk, IfSome, IsTrue, OnOk};
ghost use Rattle.effects.specs.Folding.{live};
ghost use Rattle.effects.specs.Restorable.{Rises};
ghost use Rattle.dedup_window.specs.Window.{IsLatest, id_of};
ghost use Rattle.model_laws.specs.Sound.{AreDifferent};
ghost use Rattle.durable_checks.specs.Storable.{IsFormed, IsFormedBody, IsFormedOf, IsStorable};
ghost use Rattle.js_model.specs.Lists.{Between};
ghost use Rattle.message_store.specs.Stored.{IsSmall};
ghost use Rattle.replayed_consumer.specs.Replayed.{IsReplayable};
ghost use Rattle.log_replay.specs.Restoring.{AreIdsInTime};

use crate::body::ReplayedBody;
use crate::replay::Replay;
use dedup_window::{DedupWindow, WindowFault};
use effects::{Body, Durable};
use js_base::{List, Moment, NoMemory};
use js_model::{Consumer, Id, Message};
use message_store::MessageStore;
use replayed_consumer::ReplayedConsumer;
use std::alloc::Global;

/// Whether the moments of ids do not fall, and none is after the latest.
fn rise(ids: &[Id], latest: Moment) -> bool
    ensures value { IsTrue result ↔ Rises (λ i. i.at) 0 latest ids.now }
{
    let mut earliest = 0;
    for known in ids {
        let at = known.at.as_nanos();
        if at < earliest {
            return false;
        }
        earliest = at;
    }
    earliest <= latest.as_nanos()
}

/// A store of these messages.
fn store_of(alloc: Global, messages: List<Message>) -> Result<MessageStore, NoMemory>
    requires ascend { (end : ℕ) × Between (λ m. m.seq) 1 end messages }
    requires small { All IsSmall messages }
    requires few { length messages ≤ 2 ^ 24 }
    ensures value { IfOk result (λ store. store ≡ messages) }
{
    let mut store = MessageStore::new(alloc);
    for message in messages.into_vec() {
        store.push(message)?;
    }
    Ok(store)
}

/// Adds an id to a window that has room for it.
fn add(window: &mut DedupWindow, known: &Id) -> Result<(), NoMemory>
    requires absent { id_of window.old.ids known.now.id ≡ None }
    requires latest { IsLatest known.now.at window.old.ids }
    requires room { length window.old.ids < 2 ^ 20 }
    ensures added { OnOk result (window.new ≡ record window.old { ids = window.old.ids ++ known.now ∷ [] }) }
{
    match window.add(&known.id, known.seq, known.at) {
        Ok(()) => Ok(()),
        Err(WindowFault::NoMemory) => Err(NoMemory),
        Err(WindowFault::Full) => unreachable!(),
    }
}

/// A window of these ids, in which one counts for so many nanoseconds.
fn window_of(alloc: Global, ids: &[Id], window: u64) -> Result<DedupWindow, NoMemory>
    requires apart { AreDifferent ids.now }
    requires rise { (end : ℕ) × Rises (λ i. i.at) 0 end ids.now }
    requires few { length ids.now ≤ 2 ^ 20 }
    ensures value { IfOk result (λ made. made ≡ record { window = window; ids = ids.now }) }
{
    let mut made = DedupWindow::new(alloc, window);
    for known in ids {
        add(&mut made, known)?;
    }
    Ok(made)
}

/// These consumers, to be changed by records.
fn replayed_of(alloc: Global, consumers: List<Consumer>) -> Result<Vec<ReplayedConsumer>, NoMemory>
    requires replayable { All IsReplayable consumers }
    ensures value { IfOk result (λ replayed. replayed.items ≡ consumers) }
{
    let mut replayed = Vec::new(alloc);
    for consumer in consumers.into_vec() {
        replayed.push(ReplayedConsumer::of(alloc, consumer)?)?;
    }
    Ok(replayed)
}

impl ReplayedBody {
    /// The stream as it was written down.
    fn of(alloc: Global, body: Body) -> Result<ReplayedBody, NoMemory>
        requires formed { IsFormedBody body }
        requires storable { (i : ℕ) × IsStorable (live i body) }
        requires in_time { AreIdsInTime body }
        ensures value { IfOk result (λ replayed. replayed ≡ body) }
    {
        let messages = store_of(alloc, body.messages)?;
        let ids = window_of(alloc, body.ids.as_slice(), body.config.duplicate_window)?;
        let consumers = replayed_of(alloc, body.consumers)?;
        Ok(ReplayedBody {
            made: body.made,
            moment: body.moment,
            last: body.last,
            config: body.config,
            messages,
            ids,
            consumers,
        })
    }
}

/// The stream as it was written down, if there is one.
fn body_from(alloc: Global, body: Option<Body>) -> Result<Option<ReplayedBody>, NoMemory>
    requires formed { IsFormedOf body }
    requires storable { (i : ℕ) × IsStorable (record { incarnation = i; body = body }) }
    requires in_time { IfSome body AreIdsInTime }
    ensures value { IfOk result (λ replayed. replayed ≡ body) }
{
    match body {
        Some(body) => Ok(Some(ReplayedBody::of(alloc, body)?)),
        None => Ok(None),
    }
}

impl Replay {
    /// Whether a replay can go on with it: no id of its stream is later than the one after it, or than the stream's last moment.
    pub fn goes_on(durable: &Durable) -> bool
        ensures value { IsTrue result ↔ IfSome durable.now.body AreIdsInTime }
    {
        match &durable.body {
            Some(body) => rise(body.ids.as_slice(), body.moment),
            None => true,
        }
    }

    /// A replay that goes on with what was written down. It takes memory for its messages, ids and consumers, and costs the logarithm of how much there is
    /// for each of them.
    pub fn of(alloc: Global, durable: Durable) -> Result<Replay, NoMemory>
        requires formed { IsFormed durable }
        requires storable { IsStorable durable }
        requires in_time { IfSome durable.body AreIdsInTime }
        ensures value { IfOk result (λ replay. replay ≡ durable) }
    {
        let incarnation = durable.incarnation;
        let body = body_from(alloc, durable.body)?;
        Ok(Replay { incarnation, body })
    }
}
