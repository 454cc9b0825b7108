//! The subscriptions, in the order of their making, found by their identifiers and by their patterns.

ghost use Rattle.std.specs.Prelude.{◌≡◌, ◌-◌, ◌==◌, ◌&&◌, [], ◌∷◌, ◌++◌, filter, map, not, false, length, nat_le, IfOk, OnOk, OnErr};
ghost use Rattle.std.specs.List.{list_any};
ghost use Rattle.std.specs.Bool.{OnTrue, OnFalse};
ghost use Rattle.std.specs.Option.{option_copied};
ghost use Rattle.std.specs.Ordering.{nat_cmp};
ghost use Rattle.std.specs.Map.{remove_entry};
ghost use Rattle.std.specs.BTreeMap.{is_at, IsOrdered};
ghost use Rattle.js_model.specs.Router.{is_sub, is_match, is_in_group, new_subscription, most_subscriptions, limited, counted, without_spent};
ghost use Rattle.route_index.specs.Subs.{without};
ghost use Rattle.route_core.specs.Subscriptions.{without_sub, after_one_sent, hears};
ghost use Rattle.route_index.specs.Names.{number_of};
ghost use Rattle.route_core.specs.Table.{indexed, is_of, at_number, is_spent_some, is_sub_some, AreBelow, AreNamed};
ghost use Rattle.route_core.specs.Heard.{heard_some};

use crate::subscription::Subscription;
use js_base::NoMemory;
use route_index::{Names, RouteTree, Sub, Test};
use std::alloc::Global;
use std::collections::BTreeMap;
use std::marker::Model;

/// How many subscriptions a session has at most.
const MOST: usize = 65_536;

/// The subscriptions under their numbers.
type Numbered = BTreeMap<u64, Subscription>;

/// A subscription that may be sent a message, and its number.
#[derive(Clone, Copy)]
pub(crate) struct Heard<'a> {
    pub(crate) number: u64,
    pub(crate) sub: &'a Subscription,
}

/// The subscriptions. A call costs some steps in ordered maps, however many there are.
#[derive(Drop)]
pub(crate) struct Table {
    alloc: Global,
    /// By their numbers, which ascend in the order of their making.
    subscriptions: Numbered,
    /// Their numbers, by their sessions and identifiers.
    names: Names,
    /// Their numbers, by their patterns.
    index: RouteTree,
    /// The number of the next one.
    next: u64,
}

impl Model for Table {
    ghost use Rattle.std.specs.Prelude.{List};
    ghost use Rattle.std.specs.BTreeMap.{values};
    ghost use Rattle.js_model.specs.Router.{Subscription};
    ghost use Rattle.route_core.specs.Table.{Holds};

    ghost Value = { List Subscription };

    ghost view = { λ table. values table.subscriptions };

    ghost invariant = { λ table. Holds table.subscriptions.entries table.names table.index table.next };
}

impl Table {
    /// No subscriptions. It takes no memory.
    pub(crate) fn new(alloc: Global) -> Table
        ensures empty { result ≡ [] }
    {
        Table {
            alloc,
            subscriptions: BTreeMap::new(alloc),
            names: Names::new(alloc),
            index: RouteTree::new(alloc),
            next: 0,
        }
    }

    /// Whether the session has a subscription under this identifier.
    pub(crate) fn is_in_use(&self, session: u64, sid: &[u8]) -> bool
        ensures value { result ≡ list_any (is_sub session sid.now) self.now }
    {
        self.names.number_of(session, sid).is_some()
    }

    /// How many subscriptions the session has.
    fn count_of(&self, session: u64) -> usize
        ensures value { result ≡ length (filter (is_of session) self.now) }
    {
        self.names.count_of(session)
    }

    /// Whether the session has as many subscriptions as it may have.
    pub(crate) fn is_full(&self, session: u64) -> bool
        ensures value { result ≡ nat_le most_subscriptions (length (filter (λ sub. sub.session == session) self.now)) }
    {
        self.count_of(session) >= MOST
    }

    /// Whether some subscription matches the subject: any, or one of a queue group if one is named. Those whose patterns do not match cost
    /// nothing but a few steps in ordered maps. It takes no memory.
    pub(crate) fn is_interest(&self, subject: &[u8], group: Option<&[u8]>) -> bool
        ensures value { result ≡ list_any (λ sub. is_match subject.now sub && is_in_group (option_copied group.entry) sub) self.now }
    {
        let members = Members {
            subscriptions: &self.subscriptions,
            group,
        };
        self.index.any_matching(subject, &members)
    }

    /// Adds a subscription at the end, under an identifier that is not in use. An `Err` adds none.
    pub(crate) fn subscribe(
        &mut self,
        session: u64,
        pattern: &[u8],
        queue: Option<&[u8]>,
        sid: &[u8],
    ) -> Result<(), NoMemory>
        requires absent { list_any (is_sub session sid.now) self.old ≡ false }
        ensures ok { OnOk result (self.new ≡ self.old ++ new_subscription session pattern.now (option_copied queue.entry) sid.now ∷ []) }
        ensures err { OnErr result (self.new ≡ self.old) }
    {
        let number = self.next;
        if number == u64::MAX {
            return Err(NoMemory);
        }
        let sub = Subscription::new(self.alloc, session, pattern, queue, sid)?;
        self.names.add(self.alloc, session, sid, number)?;
        match enter(&mut self.subscriptions, &mut self.index, number, sub) {
            Ok(()) => {
                self.next = number + 1;
                Ok(())
            }
            Err(refused) => {
                self.names.remove(session, sid);
                Err(refused)
            }
        }
    }

    /// Takes the session's subscription under this identifier out. It takes no memory.
    fn remove(&mut self, session: u64, sid: &[u8])
        ensures left { self.new ≡ filter (λ sub. not (is_sub session sid.now sub)) self.old }
    {
        if let Some(number) = self.names.remove(session, sid) {
            take_out(&mut self.subscriptions, &mut self.index, number);
        }
    }

    /// Takes some subscription of the session out, if it has one. It takes no memory.
    fn remove_some(&mut self, session: u64)
        ensures others { filter (λ sub. not (is_of session sub)) self.new ≡ filter (λ sub. not (is_of session sub)) self.old }
        ensures fewer { length (filter (is_of session) self.new) ≡ length (filter (is_of session) self.old) - 1 }
    {
        if let Some(number) = self.names.pop(session) {
            take_out(&mut self.subscriptions, &mut self.index, number);
        }
    }

    /// Takes the session's subscriptions out one after the other.
    fn remove_each(&mut self, session: u64)
        ensures left { self.new ≡ filter (λ sub. not (is_of session sub)) self.old }
    {
        for _at in 0..self.count_of(session) {
            self.remove_some(session);
        }
    }

    /// Takes the session's subscriptions out. It takes no memory.
    pub(crate) fn remove_session(&mut self, session: u64)
        ensures left { self.new ≡ filter (λ sub. not (sub.session == session)) self.old }
    {
        self.remove_each(session);
        self.names.forget(session);
    }

    /// Has the session's subscription under this identifier end with so many messages.
    fn limit(&mut self, session: u64, sid: &[u8], max: u64)
        ensures value { self.new ≡ map (limited session sid.now max) self.old }
    {
        if let Some(number) = self.names.number_of(session, sid) {
            if let Some(sub) = self.subscriptions.get_mut(&number) {
                sub.limit(session, sid, max);
            }
        }
    }

    /// Counts a message that was sent to the session's subscription under this identifier, and tells whether it was sent as many as it may
    /// get.
    fn count(&mut self, likely: u64, session: u64, sid: &[u8]) -> bool
        ensures value { self.new ≡ map (counted session sid.now) self.old }
        ensures spent { OnTrue result (filter (λ sub. not (is_sub session sid.now sub)) self.new ≡ without_spent session sid.now self.new) }
        ensures goes_on { OnFalse result (self.new ≡ without_spent session sid.now self.new) }
    {
        let number = number_under(&self.subscriptions, &self.names, likely, session, sid);
        if let Some(number) = number {
            if let Some(sub) = self.subscriptions.get_mut(&number) {
                sub.count(session, sid);
                return sub.is_spent();
            }
        }
        false
    }

    /// Whether the session's subscription under this identifier was sent as many messages as it may get.
    fn is_spent(&self, session: u64, sid: &[u8]) -> bool
        ensures spent { OnTrue result (filter (λ sub. not (is_sub session sid.now sub)) self.now ≡ without_spent session sid.now self.now) }
        ensures goes_on { OnFalse result (self.now ≡ without_spent session sid.now self.now) }
    {
        match self.names.number_of(session, sid) {
            Some(number) => is_spent_at(&self.subscriptions, number),
            None => false,
        }
    }

    /// Takes the session's subscription under this identifier out, if it was sent as many messages as it may get.
    fn remove_spent(&mut self, session: u64, sid: &[u8])
        ensures left { self.new ≡ without_spent session sid.now self.old }
    {
        if self.is_spent(session, sid) {
            self.remove(session, sid);
        }
    }

    /// Ends the session's subscription under this identifier: at once, or once it was sent so many messages since its making. It takes no
    /// memory.
    pub(crate) fn unsubscribe(&mut self, session: u64, sid: &[u8], max: Option<u64>)
        ensures left { self.new ≡ without_sub session sid.now max self.old }
    {
        match max {
            Some(max) => {
                self.limit(session, sid, max);
                self.remove_spent(session, sid);
            }
            None => self.remove(session, sid),
        }
    }

    /// Counts a message that was sent to the session's subscription under this identifier, and takes it out if that was its last. The number
    /// that it likely has only saves the search by its identifier. It takes no memory.
    pub(crate) fn count_sent(&mut self, likely: u64, session: u64, sid: &[u8])
        ensures left { self.new ≡ after_one_sent session sid.now self.old }
    {
        if self.count(likely, session, sid) {
            self.remove(session, sid);
        }
    }

    /// The subscriptions that may be sent a message to the subject, in their order. Those whose patterns do not match cost nothing but a few
    /// steps in an ordered map.
    pub(crate) fn hearing(
        &self,
        subject: &[u8],
        deaf: Option<u64>,
    ) -> Result<Vec<Heard<'_>>, NoMemory>
        ensures value { IfOk result (λ found. map (λ heard. heard.sub.now) found.items ≡ filter (hears subject.now deaf) self.now) }
    {
        let numbers = self.index.matching(subject)?;
        let mut found = Vec::with_capacity(self.alloc, numbers.len())?;
        for number in &numbers {
            if let Some(sub) = heard_at(&self.subscriptions, *number, deaf) {
                found.push(Heard {
                    number: *number,
                    sub,
                })?;
            }
        }
        Ok(found)
    }
}

/// The subscriptions of a queue group, or all if none is named.
#[derive(Clone, Copy)]
struct Members<'a> {
    subscriptions: &'a Numbered,
    group: Option<&'a [u8]>,
}

impl Test for Members<'_> {
    ghost use Rattle.std.specs.Option.{option_copied};
    ghost use Rattle.route_core.specs.Table.{at_number};
    ghost use Rattle.route_core.specs.Subscriptions.{is_member};

    ghost passes = { λ members id. is_member (option_copied members.group) (at_number members.subscriptions.now.entries id) };

    fn passes(&self, id: u64) -> bool {
        match self.subscriptions.get(&id) {
            Some(sub) => sub.is_in_group(self.group),
            None => false,
        }
    }
}

/// Enters a subscription under a number above all others. An `Err` enters none.
fn enter(
    subscriptions: &mut Numbered,
    index: &mut RouteTree,
    number: u64,
    sub: Subscription,
) -> Result<(), NoMemory>
    requires above { AreBelow number subscriptions.old.entries }
    requires patterns { index.old ≡ map indexed subscriptions.old.entries }
    ensures ok { OnOk result (subscriptions.new.entries ≡ subscriptions.old.entries ++ (number, sub) ∷ []) }
    ensures patterns_ok { OnOk result (index.new ≡ map indexed subscriptions.new.entries) }
    ensures ordered { OnOk result (IsOrdered nat_cmp subscriptions.new) }
    ensures err { OnErr result (subscriptions.new.entries ≡ subscriptions.old.entries) }
    ensures patterns_err { OnErr result (index.new ≡ index.old) }
{
    let pattern = sub.pattern().clone()?;
    index.add(Sub {
        id: number,
        pattern,
    })?;
    match subscriptions.insert(number, sub) {
        Ok(_) => Ok(()),
        Err(_) => {
            index.remove(number);
            Err(NoMemory)
        }
    }
}

/// Takes the subscription of a number out.
fn take_out(subscriptions: &mut Numbered, index: &mut RouteTree, number: u64)
    ensures left { subscriptions.new.entries ≡ remove_entry (is_at (nat_cmp number)) subscriptions.old.entries }
    ensures ordered { IsOrdered nat_cmp subscriptions.new }
    ensures patterns { index.new ≡ without number index.old }
{
    subscriptions.remove(&number);
    index.remove(number);
}

/// Whether the subscription of a number was sent as many messages as it may get.
fn is_spent_at(subscriptions: &Numbered, number: u64) -> bool
    ensures value { result ≡ is_spent_some (at_number subscriptions.now.entries number) }
{
    match subscriptions.get(&number) {
        Some(sub) => sub.is_spent(),
        None => false,
    }
}

/// The number of the session's subscription under this identifier. The identifier is looked up only if the number is not the likely one.
fn number_under(
    subscriptions: &Numbered,
    names: &Names,
    likely: u64,
    session: u64,
    sid: &[u8],
) -> Option<u64>
    requires named { AreNamed subscriptions.now.entries names.now }
    ensures value { result ≡ number_of names.now session sid.now }
{
    if is_under_at(subscriptions, likely, session, sid) {
        return Some(likely);
    }
    names.number_of(session, sid)
}

/// Whether the subscription of a number is the session's under this identifier.
fn is_under_at(subscriptions: &Numbered, number: u64, session: u64, sid: &[u8]) -> bool
    ensures value { result ≡ is_sub_some session sid.now (at_number subscriptions.now.entries number) }
{
    match subscriptions.get(&number) {
        Some(sub) => sub.is_under(session, sid),
        None => false,
    }
}

/// The subscription of a number, if it is none of the deaf publisher's own.
fn heard_at(subscriptions: &Numbered, number: u64, deaf: Option<u64>) -> Option<&Subscription>
    ensures value { option_copied result ≡ heard_some deaf (at_number subscriptions.now.entries number) }
{
    let sub = subscriptions.get(&number)?;
    if deaf == Some(sub.session()) {
        return None;
    }
    Some(sub)
}
