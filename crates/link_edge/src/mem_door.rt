//! A door in memory.

ghost use Rattle.std.specs.Prelude.{◌≡◌, ◌≢◌, ◌≤◌, ◌++◌, ◌∷◌, [], Some, map, count_by, IfOk};
ghost use Rattle.link_edge.specs.Accepts.{accepted_of};
ghost use Rattle.link_edge.specs.MemDoor.{is_link, next_accept, knocks_after};
ghost use Rattle.js_base.specs.Causes.{HasCause};

use crate::answers::{Accept, Accepted};
use crate::calls::Calls;
use crate::door::Door;
use crate::failings::Starved;
use crate::mem_link::MemLink;
use crate::script::Said;
use js_base::{List, NoMemory};
use std::alloc::Global;
use std::collections::VecDeque;
use std::marker::Model;

/// A member of a door's script.
#[derive(Drop, Debug)]
pub enum Knock {
    /// A link comes that plays the script, and whose calls with these numbers fail.
    Link {
        script: List<Said>,
        failing: List<u64>,
    },
    /// One accept is answered `Quiet`.
    Quiet,
}

/// A door that plays a script and then is closed. It remembers what it answered, and keeps the links
/// that came back. Accepts are numbered from 0, and those with stated numbers fail. One that is answered
/// `NoMemory` is counted, changes nothing else and gets no number.
#[derive(Drop, Debug)]
pub struct MemDoor {
    alloc: Global,
    knocks: VecDeque<Knock>,
    calls: Calls,
    answers: List<Accepted>,
    gave: usize,
    back: Vec<MemLink>,
    starved: Starved,
}

impl Model for MemDoor {
    ghost use Rattle.link_edge.specs.MemDoor.{DoorState};

    ghost Value = { DoorState };

    ghost use Rattle.std.specs.Prelude.{◌+◌, ◌≤◌, count_by, vec_capacity};
    ghost use Rattle.link_edge.specs.MemDoor.{is_link};

    ghost view = { λ s. record {
      knocks = s.knocks.items;
      calls = s.calls;
      answered = s.answers;
      gave = s.gave;
      back = s.back.items;
      starved = s.starved;
    } };

    ghost invariant = { λ s. s.gave + count_by is_link s.knocks.items ≤ vec_capacity s.back };
}

/// How many links come.
fn link_count(knocks: &[Knock]) -> usize
    ensures value { result ≡ count_by is_link knocks.now }
{
    knocks
        .iter()
        .filter(|knock| matches!(knock, Knock::Link { .. }))
        .count()
}

/// What the script answers next, as it is remembered.
fn next_accepted(knocks: &VecDeque<Knock>) -> Accepted
    ensures value { result ∷ [] ≡ accepted_of (next_accept knocks.now.items) }
{
    match knocks.front() {
        None => Accepted::Closed,
        Some(Knock::Quiet) => Accepted::Quiet,
        Some(Knock::Link { .. }) => Accepted::Got,
    }
}

/// Plays the next member of the script.
fn play(alloc: Global, knocks: &mut VecDeque<Knock>) -> Accept<MemLink>
    ensures value { result ≡ next_accept knocks.old.items }
    ensures rest { knocks.new.items ≡ knocks_after knocks.old.items }
{
    match knocks.pop_front() {
        None => Accept::Closed,
        Some(Knock::Quiet) => Accept::Quiet,
        Some(Knock::Link { script, failing }) => {
            Accept::Got(MemLink::failing(alloc, script, failing))
        }
    }
}

impl MemDoor {
    ghost use Rattle.link_edge.specs.MemDoor.{door_of};

    /// A door with the script, which never fails.
    pub fn new(alloc: Global, knocks: List<Knock>) -> Result<MemDoor, NoMemory>
        ensures fresh { IfOk result (λ door. door ≡ door_of knocks []) }
    {
        MemDoor::failing(alloc, knocks, List::new(alloc))
    }

    /// A door with the script, whose accepts with these numbers fail.
    pub fn failing(
        alloc: Global,
        knocks: List<Knock>,
        failing: List<u64>,
    ) -> Result<MemDoor, NoMemory>
        ensures fresh { IfOk result (λ door. door ≡ door_of knocks failing) }
    {
        let back = Vec::with_capacity(alloc, link_count(knocks.as_slice()))?;
        Ok(MemDoor {
            alloc,
            knocks: VecDeque::from(knocks.into_vec()),
            calls: Calls::new(failing),
            answers: List::new(alloc),
            gave: 0,
            back,
            starved: Starved::none(),
        })
    }

    /// What its accepts answered.
    pub fn answered(&self) -> &[Accepted]
        ensures value { result.now ≡ self.now.answered }
    {
        self.answers.as_slice()
    }

    /// How many links it gave out.
    pub fn gave(&self) -> usize
        ensures value { result ≡ self.now.gave }
    {
        self.gave
    }

    /// The links that came back.
    pub fn back(&self) -> &[MemLink]
        ensures value { result.now ≡ self.now.back }
    {
        self.back.as_slice()
    }

    /// How often it failed.
    pub fn faults(&self) -> u64
        ensures value { result ≡ self.now.calls.failed }
    {
        self.calls.faults()
    }
}

impl Door for MemDoor {
    ghost use Rattle.link_edge.specs.MemDoor.{accept_of, after_accept, after_done, report_of};

    type Link = MemLink;

    ghost answered = { λ s. Some s.answered };

    ghost gave = { λ s. Some s.gave };

    ghost back = { λ s. Some (map report_of s.back) };

    ghost starved = { λ s. Some s.starved };

    ghost faults = { λ s. s.calls.failed };

    /// Plays the next member of the script, or fails if its number is one of those that fail.
    fn accept(&mut self) -> Accept<MemLink>
        ensures answer { result ≢ Accept.NoMemory → result ≡ accept_of self.old }
        ensures after { self.new ≡ after_accept self.old result }
        ensures cause { HasCause self.old.calls.failed self.new.calls.failed (result ≡ Accept.Failed) }
    {
        self.starved.count_accept();
        if self.calls.next_fails() {
            if self.answers.push(Accepted::Failed).is_err() {
                self.starved.starve();
                return Accept::NoMemory;
            }
            self.calls.fail();
            return Accept::Failed;
        }
        if self.answers.push(next_accepted(&self.knocks)).is_err() {
            self.starved.starve();
            return Accept::NoMemory;
        }
        self.calls.pass();
        match play(self.alloc, &mut self.knocks) {
            Accept::Got(link) => {
                self.gave += 1;
                Accept::Got(link)
            }
            accept => accept,
        }
    }

    /// Keeps the link. If as many came back as were given out, it is let go.
    fn done(&mut self, link: MemLink)
        ensures after { self.new ≡ after_done self.old link }
    {
        if self.back.len() < self.gave {
            self.back.push_reserved(link);
        }
    }
}
