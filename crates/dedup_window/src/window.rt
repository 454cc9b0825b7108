//! A duplicate window.

ghost use Rattle.std.specs.Prelude.{◌≡◌, ◌<◌, ◌≤◌, ◌↔◌, ◌+◌, ◌^◌, [], ◌∷◌, ◌++◌, length, drop, option_map, option_to_list, nat_lt, slice_get, sum_by, All, IfOk, IfSome, None, OnOk, OnErr};
ghost use Rattle.std.specs.Bool.{OnTrue, OnFalse};
ghost use Rattle.std.specs.List.{last_or};
ghost use Rattle.std.specs.Option.{option_copied};
ghost use Rattle.js_base.specs.Moments.{plus};
ghost use Rattle.dedup_window.specs.Window.{id_of, seq_of, remembered, IsLatest};

use crate::fault::WindowFault;
use crate::known::{Added, KnownIds};
use js_base::{Blob, Moment, NoMemory};
use js_model::Id;
use std::alloc::Global;
use std::collections::VecDeque;
use std::marker::Model;

/// How many ids a window may have.
const MAX_IDS: usize = 1 << 20;

/// How many bytes the texts of its ids may have together.
const MAX_BYTES: u64 = 1 << 40;

/// The message ids of a stream, each with the sequence and the moment at which it was added, and for how many nanoseconds an id counts from then
/// on. The cost of a call grows with the logarithm of the number of ids.
#[derive(Drop)]
pub struct DedupWindow {
    window: u64,
    /// In the order of their adding.
    pub(crate) ids: VecDeque<Id>,
    /// The same, by their texts.
    known: KnownIds,
    /// How many bytes their texts have together.
    bytes: u64,
}

impl Model for DedupWindow {
    ghost use Rattle.dedup_window.specs.Window.{Window};
    ghost use Rattle.dedup_window.specs.Mirrors.{IsWindow};

    ghost Value = { Window };

    ghost view = { λ w. record { window = w.window; ids = w.ids.items } };

    ghost invariant = { λ w. IsWindow w.ids.items w.known w.bytes };
}

impl DedupWindow {
    /// A window without ids, in which an id counts for this many nanoseconds. It takes no memory.
    pub fn new(alloc: Global, window: u64) -> DedupWindow
        ensures value { result ≡ record { window = window; ids = [] } }
    {
        DedupWindow {
            window,
            ids: VecDeque::new(alloc),
            known: KnownIds::new(alloc),
            bytes: 0,
        }
    }

    /// From now on an id counts for this many nanoseconds. The ids stay, also those that do not count any more.
    pub fn set_window(&mut self, window: u64)
        ensures value { self.new ≡ record self.old { window = window } }
    {
        self.window = window;
    }

    /// For how many nanoseconds an id counts.
    pub fn window(&self) -> u64
        ensures value { result ≡ self.now.window }
    {
        self.window
    }

    /// How many ids there are, at most 2^20.
    pub fn len(&self) -> u64
        ensures value { result ≡ length self.now.ids }
        ensures bound { result ≤ 2 ^ 20 }
    {
        self.ids.len() as u64
    }

    /// How many bytes the texts of its ids have together, whether or not they still count.
    pub fn bytes(&self) -> u64
        ensures value { result ≡ sum_by (λ i. length i.id) self.now.ids }
        ensures bound { result ≤ 2 ^ 40 }
    {
        self.bytes
    }

    /// The sequence of the id that has this text, whether or not it still counts.
    pub fn seq_of(&self, id: &[u8]) -> Option<u64>
        ensures value { result ≡ seq_of self.now.ids id.now }
    {
        let added = self.known.get(id)?;
        Some(added.seq)
    }

    /// The sequence of the id that has this text and still counts at the moment.
    pub fn seen(&self, id: &[u8], now: Moment) -> Option<u64>
        ensures value { result ≡ seq_of (remembered self.now now) id.now }
    {
        let added = self.known.get(id)?;
        if counts(added.at, self.window, now) {
            Some(added.seq)
        } else {
            None
        }
    }

    /// The id that was added last of those that are there.
    pub fn last(&self) -> Option<&Blob>
        ensures value { option_copied result ≡ option_map (λ i. i.id) (last_or None self.now.ids) }
    {
        let last = self.ids.back()?;
        Some(&last.id)
    }

    /// The moment from which on the oldest id does not count any more. Before it all count; it is `None` exactly if there is no id.
    pub fn next_timer(&self) -> Option<Moment>
        ensures value { result ≡ option_map (λ i. plus i.at self.now.window) (slice_get self.now.ids 0) }
        ensures first { IfSome result (λ first. All (λ i. first ≤ plus i.at self.now.window) self.now.ids) }
    {
        let oldest = self.ids.front()?;
        Some(oldest.at.plus(self.window))
    }

    /// Adds an id whose text no other has, at a moment no earlier than any of theirs. It is `Full` exactly with 2^20 ids, and else `NoMemory` if an
    /// allocation is refused, or if the texts would have more than 2^40 bytes together; either changes nothing.
    pub fn add(&mut self, id: &Blob, seq: u64, at: Moment) -> Result<(), WindowFault>
        requires absent { id_of self.old.ids id.now ≡ None }
        requires latest { IsLatest at self.old.ids }
        ensures ok { OnOk result (self.new ≡ record self.old { ids = self.old.ids ++ record { id = id.now; seq = seq; at = at } ∷ [] }) }
        ensures err { OnErr result (self.new ≡ self.old) }
        ensures full { (result ≡ Err WindowFault.Full) ↔ (length self.old.ids ≡ 2 ^ 20) }
    {
        if self.ids.len() == MAX_IDS {
            return Err(WindowFault::Full);
        }
        self.put(id, seq, at).map_err(|_| WindowFault::NoMemory)
    }

    /// Adds an id, for which there is room.
    fn put(&mut self, id: &Blob, seq: u64, at: Moment) -> Result<(), NoMemory>
        requires absent { id_of self.old.ids id.now ≡ None }
        requires latest { IsLatest at self.old.ids }
        requires room { length self.old.ids < 2 ^ 20 }
        ensures ok { OnOk result (self.new ≡ record self.old { ids = self.old.ids ++ record { id = id.now; seq = seq; at = at } ∷ [] }) }
        ensures err { OnErr result (self.new ≡ self.old) }
    {
        let bytes = more_bytes(self.bytes, id.len())?;
        let shared = id.clone()?;
        self.ids.reserve(1)?;
        self.known.put(id.as_slice(), Added { seq, at })?;
        self.bytes = bytes;
        self.ids.push_back_reserved(Id {
            id: shared,
            seq,
            at,
        });
        Ok(())
    }

    /// Lets go of the ids that do not count any more at the moment. It takes no memory, and its cost grows with the number of these.
    pub fn expire(&mut self, now: Moment)
        ensures left { self.new ≡ record self.old { ids = remembered self.old now } }
    {
        while self.is_oldest_expired(now) {
            self.pop();
        }
    }

    /// Whether the oldest id does not count any more. If it still does, so do all others.
    fn is_oldest_expired(&self, now: Moment) -> bool
        ensures some { OnTrue result (0 < length self.now.ids) }
        ensures rest { OnTrue result (remembered (record self.now { ids = drop 1 self.now.ids }) now ≡ remembered self.now now) }
        ensures all { OnFalse result (remembered self.now now ≡ self.now.ids) }
    {
        match self.ids.front() {
            Some(oldest) => !counts(oldest.at, self.window, now),
            None => false,
        }
    }

    /// Takes the oldest id out, if there is one. It takes no memory.
    pub fn pop(&mut self) -> Option<Id>
        ensures oldest { self.old.ids ≡ option_to_list result ++ self.new.ids }
        ensures left { self.new ≡ record self.old { ids = drop 1 self.old.ids } }
    {
        let Some(oldest) = self.ids.pop_front() else {
            return None;
        };
        self.known.remove(oldest.id.as_slice());
        self.bytes -= oldest.id.len() as u64;
        Some(oldest)
    }
}

/// So many bytes and those of one text more, if a window may have them.
fn more_bytes(bytes: u64, more: usize) -> Result<u64, NoMemory>
    ensures sum { IfOk result (λ sum. sum ≡ bytes + more) }
    ensures bound { IfOk result (λ sum. sum ≤ 2 ^ 40) }
{
    match bytes.checked_add(more as u64) {
        Some(sum) if sum <= MAX_BYTES => Ok(sum),
        _ => Err(NoMemory),
    }
}

/// Whether an id that was added at a moment, and counts for this many nanoseconds, still counts at another.
fn counts(at: Moment, window: u64, now: Moment) -> bool
    ensures value { result ≡ nat_lt now (plus at window) }
{
    now.as_nanos() < at.plus(window).as_nanos()
}
