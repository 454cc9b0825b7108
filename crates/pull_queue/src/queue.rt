//! The queue of the pulls.

ghost use Rattle.std.specs.Prelude.{◌≡◌, ◌≤◌, ◌↔◌, ◌++◌, ◌&&◌, [], ◌∷◌, if◌then◌else◌, count_by, drop, length, find, not, slice_get, IsNone, IfOk, OnOk, OnErr};
ghost use Rattle.std.specs.List.{list_any, position};
ghost use Rattle.std.specs.Option.{option_copied};
ghost use Rattle.js_model.specs.Advance.{is_over};
ghost use Rattle.js_model.specs.Deliver.{fits, front_served, served, without_first};
ghost use Rattle.pull_queue.specs.Passing.{passing_outs, passed};
ghost use Rattle.pull_queue.specs.Fronts.{front_of, after_front};
ghost use Rattle.pull_queue.specs.Quiet.{IsQuietUntil};

use crate::fault::PullFault;
use crate::front::Front;
use crate::moments::{beat_all, earlier, is_over, is_reached, next_of, next_of_all};
use crate::status::{put_beats, put_timeouts};
use consumer_texts::append;
use js_base::{Moment, NoMemory, Out, Outs};
use js_model::Pull;
use std::alloc::Global;
use std::collections::VecDeque;
use std::marker::Model;

/// The pulls of a consumer that wait for messages, in the order of their asking, and how many of them may.
#[derive(Drop)]
pub struct PullQueue {
    alloc: Global,
    max_waiting: u64,
    pulls: VecDeque<Pull>,
    /// Before this moment no pull ends and no heartbeat comes; without one, none ever does.
    next: Option<Moment>,
    /// How many of them end when nothing can be delivered.
    no_waits: u64,
}

impl Model for PullQueue {
    ghost use Rattle.pull_queue.specs.Queue.{Queue};
    ghost use Rattle.pull_queue.specs.Kept.{IsKeptQueue};

    ghost Value = { Queue };

    ghost view = { λ q. record { max_waiting = q.max_waiting; pulls = q.pulls.items } };

    ghost invariant = { λ q. IsKeptQueue q.next q.no_waits q.pulls.items };
}

impl PullQueue {
    /// An empty queue for at most `max_waiting` pulls. It takes no memory.
    pub fn new(alloc: Global, max_waiting: u64) -> PullQueue
        ensures value { result ≡ record { max_waiting = max_waiting; pulls = [] } }
    {
        PullQueue {
            alloc,
            max_waiting,
            pulls: VecDeque::new(alloc),
            next: None,
            no_waits: 0,
        }
    }

    /// How many pulls wait.
    pub fn len(&self) -> u64
        ensures value { result ≡ length self.now.pulls }
    {
        self.pulls.len() as u64
    }

    /// The pull at a place, counted from 0; `None` exactly from the length on.
    pub fn at(&self, place: u64) -> Option<&Pull>
        ensures value { option_copied result ≡ slice_get self.now.pulls place }
        ensures none { IsNone result ↔ (length self.now.pulls ≤ place) }
    {
        self.pulls.get(place as usize)
    }

    /// The pull that waits longest.
    pub fn front(&self) -> Option<&Pull>
        ensures value { option_copied result ≡ slice_get self.now.pulls 0 }
    {
        self.pulls.front()
    }

    /// Whether some pull ends when nothing can be delivered. It looks at no pull.
    pub fn has_no_wait(&self) -> bool
        ensures value { result ≡ list_any (λ p. p.no_wait) self.now.pulls }
    {
        0 < self.no_waits
    }

    /// The first pull that ends when nothing can be delivered.
    pub fn no_wait(&self) -> Option<&Pull>
        ensures value { option_copied result ≡ find (λ p. p.no_wait) self.now.pulls }
    {
        let place = self.no_wait_place()?;
        self.at(place as u64)
    }

    fn no_wait_place(&self) -> Option<usize>
        ensures value { result ≡ position (λ p. p.no_wait) self.now.pulls }
    {
        self.pulls.iter().position(|pull| pull.no_wait)
    }

    /// Whether some pull has ended by a moment. If nothing is due at the moment, no pull is looked at.
    pub fn has_over(&self, now: Moment) -> bool
        ensures value { result ≡ list_any (is_over now) self.now.pulls }
    {
        if !is_reached(self.next, now) {
            return false;
        }
        self.pulls.iter().any(|pull| is_over(pull, now))
    }

    /// Whether some pull goes on after a moment.
    pub fn has_running(&self, now: Moment) -> bool
        ensures value { result ≡ list_any (λ p. not (is_over now p)) self.now.pulls }
    {
        self.pulls.iter().any(|pull| !is_over(pull, now))
    }

    /// Whether some pull that ends when nothing can be delivered goes on after a moment.
    pub fn has_running_no_wait(&self, now: Moment) -> bool
        ensures value { result ≡ list_any (λ p. not (is_over now p) && p.no_wait) self.now.pulls }
    {
        self.pulls
            .iter()
            .any(|pull| !is_over(pull, now) && pull.no_wait)
    }

    /// Takes out the first pull that ends when nothing can be delivered, and says whether there was one. It takes no memory.
    pub fn end_no_wait(&mut self) -> bool
        ensures value { result ≡ list_any (λ p. p.no_wait) self.old.pulls }
        ensures left { self.new ≡ record self.old { pulls = without_first (λ p. p.no_wait) self.old.pulls } }
    {
        match self.no_wait_place() {
            Some(place) => {
                self.pulls.remove(place);
                self.no_waits = self.no_waits.saturating_sub(1);
                true
            }
            None => false,
        }
    }

    /// Adds a pull behind all others. The fault is `Full` exactly if `max_waiting` pulls wait already, and else `NoMemory` if an allocation is refused;
    /// either changes nothing.
    pub fn ask(&mut self, pull: Pull) -> Result<(), PullFault>
        ensures ok { OnOk result (self.new ≡ record self.old { pulls = self.old.pulls ++ pull ∷ [] }) }
        ensures err { OnErr result (self.new ≡ self.old) }
        ensures full { (result ≡ Err PullFault.Full) ↔ (self.old.max_waiting ≤ length self.old.pulls) }
    {
        if self.max_waiting <= self.len() {
            return Err(PullFault::Full);
        }
        self.put(pull).map_err(|_| PullFault::NoMemory)
    }

    fn put(&mut self, pull: Pull) -> Result<(), NoMemory>
        ensures ok { OnOk result (self.new ≡ record self.old { pulls = self.old.pulls ++ pull ∷ [] }) }
        ensures err { OnErr result (self.new ≡ self.old) }
    {
        let next = earlier(self.next, next_of(&pull));
        let own = no_waits_of(&pull);
        self.pulls.push_back(pull)?;
        self.next = next;
        self.no_waits = self.no_waits.saturating_add(own);
        Ok(())
    }

    /// Gives the front pull a message of so many bytes, and says what became of the pull: `Nobody` exactly if none waits, and `TooSmall` exactly if it
    /// takes fewer bytes. A pull that was served and stays is marked with the moment. It takes no memory.
    pub fn take_front(&mut self, size: u64, now: Moment) -> Front
        ensures value { result ≡ front_of size self.old.pulls }
        ensures left { self.new ≡ record self.old { pulls = after_front size now self.old.pulls } }
    {
        let Some(pull) = self.pulls.front() else {
            return Front::Nobody;
        };
        if !fits(size, pull.bytes) {
            self.pop_front();
            return Front::TooSmall;
        }
        self.serve_front(size, now);
        Front::Served
    }

    /// Takes a message of so many bytes off what the front pull still takes. It goes if that was the last one of its batch.
    fn serve_front(&mut self, size: u64, now: Moment)
        ensures left { self.new ≡ record self.old { pulls = front_served now size self.old.pulls } }
    {
        let Some(pull) = self.pulls.front_mut() else {
            return;
        };
        if pull.batch <= 1 {
            self.pop_front();
            return;
        }
        serve(pull, size, now);
        self.next = earlier(self.next, next_of(pull));
    }

    /// Takes out the front pull, if there is one.
    fn pop_front(&mut self)
        ensures left { self.new ≡ record self.old { pulls = drop 1 self.old.pulls } }
    {
        if let Some(pull) = self.pulls.pop_front() {
            self.no_waits = self.no_waits.saturating_sub(no_waits_of(&pull));
        }
    }

    /// A moment before which no pull ends and no heartbeat comes; `None` only if none ever does. It looks at no pull.
    pub fn next_timer(&self) -> Option<Moment>
        ensures quiet { IsQuietUntil result self.now.pulls }
    {
        self.next
    }

    /// Adds what the pulls are sent by a moment: the timeouts of those that end, then the heartbeats of the others, both in the order of their asking.
    /// An `Err` adds none. If nothing is due at the moment, no pull is looked at.
    pub fn tell(&self, now: Moment, outs: &mut Outs) -> Result<(), NoMemory>
        ensures ok { OnOk result (outs.new ≡ outs.old ++ passing_outs now self.now.pulls) }
        ensures err { OnErr result (outs.new ≡ outs.old) }
    {
        if !is_reached(self.next, now) {
            return Ok(());
        }
        let more = self.told(now)?;
        append(self.alloc, outs, more)
    }

    fn told(&self, now: Moment) -> Result<Vec<Out>, NoMemory>
        ensures value { IfOk result (λ outs. outs.items ≡ passing_outs now self.now.pulls) }
    {
        let (front, back) = self.pulls.as_slices();
        let mut outs = Vec::new(self.alloc);
        put_timeouts(self.alloc, &mut outs, front, now)?;
        put_timeouts(self.alloc, &mut outs, back, now)?;
        put_beats(self.alloc, &mut outs, front, now)?;
        put_beats(self.alloc, &mut outs, back, now)?;
        Ok(outs)
    }

    /// Takes out the pulls that have ended by a moment, and marks the heartbeats of the others that have come. It takes no memory. If nothing is due at
    /// the moment, no pull is looked at.
    pub fn pass_time(&mut self, now: Moment)
        ensures left { self.new ≡ record self.old { pulls = passed now self.old.pulls } }
    {
        if !is_reached(self.next, now) {
            return;
        }
        self.pulls.retain(|pull| !is_over(pull, now));
        let pulls = self.pulls.make_contiguous();
        beat_all(pulls, now);
        let next = next_of_all(pulls);
        let no_waits = no_waits_of_all(pulls);
        self.next = next;
        self.no_waits = no_waits;
    }
}

/// 1 for a pull that ends when nothing can be delivered, and else 0.
fn no_waits_of(pull: &Pull) -> u64
    ensures value { result ≡ (if pull.now.no_wait then 1 else 0) }
{
    if pull.no_wait { 1 } else { 0 }
}

/// How many of the pulls end when nothing can be delivered.
fn no_waits_of_all(pulls: &[Pull]) -> u64
    ensures value { result ≡ count_by (λ p. p.no_wait) pulls.now }
{
    pulls.iter().filter(|pull| pull.no_wait).count() as u64
}

/// Whether a pull that still takes so many bytes takes a message of this size.
fn fits(size: u64, bytes: Option<u64>) -> bool
    ensures value { result ≡ fits size bytes }
{
    match bytes {
        Some(limit) => size <= limit,
        None => true,
    }
}

/// Takes a message of so many bytes off what the pull still takes.
fn serve(pull: &mut Pull, size: u64, now: Moment)
    ensures value { pull.new ≡ served now size pull.old }
{
    pull.batch = pull.batch.saturating_sub(1);
    pull.bytes = pull.bytes.map(|limit| limit.saturating_sub(size));
    pull.mark = now;
}
