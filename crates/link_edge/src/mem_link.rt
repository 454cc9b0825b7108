//! A link in memory.

ghost use Rattle.std.specs.Prelude.{◌≡◌, ◌≢◌, ◌<◌, ◌++◌, Some, [], length, IfOk, OnOk, OnErr, option_to_list, if◌then◌else◌};
ghost use Rattle.link_edge.specs.Takes.{IsTakeWithin, taken_bytes, answers_of};
ghost use Rattle.js_base.specs.Causes.{HasCause};
ghost use Rattle.link_edge.specs.Script.{script_bytes, next_take, script_after};
ghost use Rattle.link_edge.specs.Calls.{next_fails};

use crate::answers::{Answer, Give, Take};
use crate::calls::Calls;
use crate::failings::Failings;
use crate::link::Link;
use crate::script::{Said, Script};
use js_base::{List, NoMemory};
use std::alloc::Global;
use std::marker::Model;

/// A link that plays a script and then is at its end. It remembers what its takes answered and what it
/// was given. Takes and gives are numbered together from 0, and those with stated numbers fail. A call
/// that is answered `NoMemory` is counted, changes nothing else and gets no number.
#[derive(Drop, Debug)]
pub struct MemLink {
    alloc: Global,
    script: Script,
    calls: Calls,
    answers: List<Answer>,
    output: Vec<u8>,
    failings: Failings,
}

impl Model for MemLink {
    ghost use Rattle.link_edge.specs.MemLink.{LinkState};

    ghost Value = { LinkState };

    ghost view = { λ s. record {
      script = s.script;
      calls = s.calls;
      answered = s.answers;
      given = s.output.items;
      failings = s.failings;
    } };
}

impl MemLink {
    ghost use Rattle.link_edge.specs.MemLink.{link_of};

    /// A link over the script, which never fails.
    pub fn new(alloc: Global, script: List<Said>) -> MemLink
        ensures fresh { result ≡ link_of script [] }
    {
        MemLink::failing(alloc, script, List::new(alloc))
    }

    /// A link over the script whose calls with these numbers fail.
    pub fn failing(alloc: Global, script: List<Said>, failing: List<u64>) -> MemLink
        ensures fresh { result ≡ link_of script failing }
    {
        MemLink {
            alloc,
            script: Script::new(script),
            calls: Calls::new(failing),
            answers: List::new(alloc),
            output: Vec::new(alloc),
            failings: Failings::none(),
        }
    }

    /// What its takes answered.
    pub fn answered(&self) -> &[Answer]
        ensures value { result.now ≡ self.now.answered }
    {
        self.answers.as_slice()
    }

    /// What it was given.
    pub fn given(&self) -> &[u8]
        ensures value { result.now ≡ self.now.given }
    {
        self.output.as_slice()
    }

    /// How often it failed.
    pub fn faults(&self) -> u64
        ensures value { result ≡ self.now.calls.failed }
    {
        self.calls.faults()
    }
}

/// What the next take answers. It changes nothing.
fn next_take(calls: &Calls, script: &Script, into: &mut [u8]) -> Take
    requires room { 0 < length into.old }
    ensures value { result
        ≡ (if next_fails calls.now then Take.Failed else next_take script.now (length into.new)) }
    ensures bytes { script_bytes script.now ≡ taken_bytes result into.new ++ script_bytes
        (if next_fails calls.now then script.now else script_after script.now (length into.new)) }
{
    if calls.next_fails() {
        return Take::Failed;
    }
    script.say(into)
}

/// An answer as it is remembered.
fn answer_of(alloc: Global, take: Take, room: &[u8]) -> Result<Option<Answer>, NoMemory>
    requires within { IsTakeWithin take (length room.now) }
    ensures ok { IfOk result (λ answer. option_to_list answer ≡ answers_of take room.now) }
{
    match take {
        Take::Got(count) => {
            let piece = Vec::from_slice(alloc, &room[..count])?;
            Ok(Some(Answer::Piece(List::from_vec(piece))))
        }
        Take::Quiet => Ok(Some(Answer::Quiet)),
        Take::Ended => Ok(Some(Answer::Ended)),
        Take::Failed => Ok(Some(Answer::Failed)),
        Take::NoMemory => Ok(None),
    }
}

/// Remembers an answer. An `Err` leaves what was remembered.
fn remember(
    alloc: Global,
    answers: &mut List<Answer>,
    take: Take,
    room: &[u8],
) -> Result<(), NoMemory>
    requires within { IsTakeWithin take (length room.now) }
    ensures ok { OnOk result (answers.new ≡ answers.old ++ answers_of take room.now) }
    ensures err { OnErr result (answers.new ≡ answers.old) }
{
    match answer_of(alloc, take, room) {
        Ok(Some(answer)) => answers.push(answer),
        Ok(None) => Ok(()),
        Err(NoMemory) => Err(NoMemory),
    }
}

impl Link for MemLink {
    ghost use Rattle.link_edge.specs.MemLink.{take_of, after_take, give_of, after_give};

    ghost left = { λ s. Some (script_bytes s.script) };

    ghost answered = { λ s. Some s.answered };

    ghost given = { λ s. Some s.given };

    ghost failings = { λ s. Some s.failings };

    ghost faults = { λ s. s.calls.failed };

    /// Plays the next member of the script, or fails if its number is one of those that fail.
    fn take(&mut self, into: &mut [u8]) -> Take
        requires room { 0 < length into.old }
        ensures answer { result ≢ Take.NoMemory → result ≡ take_of self.old (length into.new) }
        ensures after { self.new ≡ after_take self.old result into.new }
        ensures within { IsTakeWithin result (length into.new) }
        ensures bytes { script_bytes self.old.script
            ≡ taken_bytes result into.new ++ script_bytes self.new.script }
        ensures cause { HasCause self.old.calls.failed self.new.calls.failed (result ≡ Take.Failed) }
    {
        self.failings.count_call();
        let take = next_take(&self.calls, &self.script, into);
        if remember(self.alloc, &mut self.answers, take, into).is_err() {
            self.failings.starve();
            return Take::NoMemory;
        }
        if take == Take::Failed {
            self.calls.fail();
            return Take::Failed;
        }
        self.script.advance(into.len());
        self.calls.pass();
        take
    }

    /// Takes all of the bytes, or fails if its number is one of those that fail.
    fn give(&mut self, bytes: &[u8]) -> Give
        requires bytes { 0 < length bytes.now }
        ensures answer { result ≢ Give.NoMemory → result ≡ give_of self.old (length bytes.now) }
        ensures after { self.new ≡ after_give self.old result bytes.now }
        ensures cause { HasCause self.old.calls.failed self.new.calls.failed (result ≡ Give.Failed) }
    {
        self.failings.count_call();
        if self.calls.next_fails() {
            self.calls.fail();
            self.failings.fail_give();
            return Give::Failed;
        }
        if self.output.extend_from_slice(bytes).is_err() {
            self.failings.starve();
            return Give::NoMemory;
        }
        self.calls.pass();
        Give::Gave(bytes.len())
    }
}
