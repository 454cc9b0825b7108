//! The records of an event or of a delivery.

ghost use Rattle.std.specs.Prelude.{◌≡◌, ◌≤◌, ◌+◌, ◌++◌, [], Some, length, map, vec_len, IfSome, OnErr, OnOk};
ghost use Rattle.std.specs.Vec.{vec_capacity};
ghost use Rattle.effects.specs.TimeEffects.{remove_of};
ghost use Rattle.place_records.specs.Records.{effects_in, gives_up, own_in, time_in, IsFresh};

use effects::Effect;
use js_base::{Blob, List, Moment, NoMemory};
use removals::{Range, Removals};
use std::alloc::Global;
use std::mem;

/// What is recorded of time that passes for a stream.
#[derive(Drop)]
pub struct TimeRecords {
    /// The moment to which time passes.
    pub moment: Moment,
    /// Whether the moment is recorded: it is later than the stream's last one, or ids leave the duplicate window.
    pub seen: bool,
    /// The messages that are too old.
    pub aged: Removals,
    /// The names of the consumers that give deliveries up, in their order.
    pub given_up: List<Blob>,
}

/// What is recorded of what was asked of a stream, or delivered.
#[derive(Drop)]
pub struct OwnRecords {
    /// The record of the event or of the delivery itself, if it has one.
    pub effect: Option<Effect>,
    /// The messages that leave, each limit's and the retention's behind those that were to be removed.
    pub removed: Removals,
}

/// The records of one event or of one delivery. It is made once and serves for one after the other.
#[derive(Drop)]
pub struct Made {
    alloc: Global,
    pub time: TimeRecords,
    pub own: OwnRecords,
}

impl Made {
    /// No records. It takes no memory.
    pub fn new(alloc: Global) -> Made
        ensures fresh { IsFresh result }
        ensures none { effects_in result ≡ [] }
    {
        let Some(moment) = Moment::of(0) else {
            unreachable!()
        };
        Made {
            alloc,
            time: TimeRecords {
                moment,
                seen: false,
                aged: Removals::new(alloc),
                given_up: List::new(alloc),
            },
            own: OwnRecords {
                effect: None,
                removed: Removals::new(alloc),
            },
        }
    }

    /// Forgets all records. It keeps its memory.
    pub fn clear(&mut self)
        ensures fresh { IsFresh self.new }
        ensures none { effects_in self.new ≡ [] }
    {
        self.time.seen = false;
        self.time.aged.clear();
        self.time.given_up = List::new(self.alloc);
        self.own.record(None);
        self.own.removed.clear();
    }

    /// Moves the records to the end of a list, in the order in which a log has them. An `Err` leaves them all.
    pub fn give_to(&mut self, effects: &mut Vec<Effect>) -> Result<(), NoMemory>
        ensures ok { OnOk result (effects.new.items ≡ effects.old.items ++ effects_in self.old) }
        ensures left { OnOk result (IsFresh self.new) }
        ensures none { OnOk result (effects_in self.new ≡ []) }
        ensures err { OnErr result (effects.new.items ≡ effects.old.items) }
        ensures made_left { OnErr result (self.new ≡ self.old) }
    {
        let Some(most) = self.most() else {
            return Err(NoMemory);
        };
        effects.reserve(most)?;
        self.time.move_to(self.alloc, effects);
        self.own.move_to(effects);
        self.clear();
        Ok(())
    }

    /// How many records there are at most, if that is a number.
    fn most(&self) -> Option<usize>
        ensures value { IfSome result (λ most. most ≡ length self.now.time.aged.ranges + length self.now.time.given_up + length self.now.own.removed.ranges + 2) }
    {
        let aged = self.time.aged.as_slice().len();
        let given_up = self.time.given_up.len();
        let removed = self.own.removed.as_slice().len();
        aged.checked_add(given_up)?
            .checked_add(removed)?
            .checked_add(2)
    }
}

impl TimeRecords {
    /// Adds its records at the end; the names are moved.
    fn move_to(&mut self, alloc: Global, effects: &mut Vec<Effect>)
        requires room { vec_len effects.old + (length self.old.aged.ranges + length self.old.given_up + 1) ≤ vec_capacity effects.old }
        ensures items { effects.new.items ≡ effects.old.items ++ time_in self.old }
        ensures capacity { vec_capacity effects.new ≡ vec_capacity effects.old }
    {
        if self.seen {
            effects.push_reserved(Effect::Now {
                moment: self.moment,
            });
        }
        add_removals(self.aged.as_slice(), effects);
        let names = mem::replace(&mut self.given_up, List::new(alloc));
        add_given_up(names.into_vec(), self.moment, effects);
    }
}

impl OwnRecords {
    /// The record of the event or of the delivery itself, if it has one.
    pub fn record(&mut self, effect: Option<Effect>)
        ensures value { self.new ≡ record self.old { effect = effect } }
    {
        self.effect = effect;
    }

    /// Adds its records at the end, but keeps the ranges.
    fn move_to(&mut self, effects: &mut Vec<Effect>)
        requires room { vec_len effects.old + (length self.old.removed.ranges + 1) ≤ vec_capacity effects.old }
        ensures items { effects.new.items ≡ effects.old.items ++ own_in self.old }
        ensures capacity { vec_capacity effects.new ≡ vec_capacity effects.old }
    {
        if let Some(effect) = self.effect.take() {
            effects.push_reserved(effect);
        }
        add_removals(self.removed.as_slice(), effects);
    }
}

/// Adds a record for each range.
fn add_removals(ranges: &[Range], effects: &mut Vec<Effect>)
    requires room { vec_len effects.old + length ranges.now ≤ vec_capacity effects.old }
    ensures items { effects.new.items ≡ effects.old.items ++ map remove_of ranges.now }
    ensures capacity { vec_capacity effects.new ≡ vec_capacity effects.old }
{
    for range in ranges {
        effects.push_reserved(Effect::Remove {
            low: range.low,
            high: range.high,
        });
    }
}

/// Adds a record for each consumer that gives deliveries up at a moment.
fn add_given_up(names: Vec<Blob>, moment: Moment, effects: &mut Vec<Effect>)
    requires room { vec_len effects.old + length names.items ≤ vec_capacity effects.old }
    ensures items { effects.new.items ≡ effects.old.items ++ map (gives_up moment) names.items }
    ensures capacity { vec_capacity effects.new ≡ vec_capacity effects.old }
{
    for name in names {
        effects.push_reserved(Effect::GivenUp { name, moment });
    }
}
