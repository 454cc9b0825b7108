//! What outlives a crash, as the records of a log have made it so far.

ghost use Rattle.std.specs.Prelude.{◌≡◌, ◌↔◌, IfOk, IfErr, IfSome, IsTrue, Some};
ghost use Rattle.effects.specs.Folding.{fold};
ghost use Rattle.op_records.specs.Allowed.{is_record};
ghost use Rattle.record_fold.specs.Faults.{IsFoldFault};
ghost use Rattle.durable_checks.specs.Storable.{IsFormed, IsStorable};
ghost use Rattle.log_replay.specs.Restoring.{AreIdsInTime};
ghost use Rattle.log_records.specs.Holding.{held_in, IsHeldOf, IsReplayStorable, IsReplayed};

use durable_checks::is_storable;
use effects::{Durable, Effect};
use js_base::NoMemory;
use log_replay::Replay;
use record_fold::{FoldFault, fold};
use std::alloc::Global;

/// What outlives a crash, as the records of a log have made it so far.
#[derive(Drop)]
pub(crate) enum Held {
    /// Each record was one that a replay takes.
    Replayed(Replay),
    /// A record was another one, from which on all are folded over lists.
    Folded(Durable),
}

/// With a record more, folded over lists.
fn folded(alloc: Global, old: Durable, effect: Effect) -> Result<Held, FoldFault>
    requires formed { IsFormed old }
    requires allowed { IsTrue (is_record effect) }
    ensures ok { IfOk result (λ held. fold old effect ≡ Some (held_in held)) }
    ensures sound { IfOk result IsReplayStorable }
    ensures err { IfErr result (IsFoldFault old effect) }
{
    let mut durable = old;
    fold(alloc, &mut durable, effect)?;
    Ok(Held::Folded(durable))
}

/// With a record more, replayed if the replay takes it.
fn replayed(alloc: Global, old: Replay, effect: Effect) -> Result<Held, FoldFault>
    requires formed { IsFormed old }
    requires storable { IsStorable old }
    requires allowed { IsTrue (is_record effect) }
    ensures ok { IfOk result (λ held. fold old effect ≡ Some (held_in held)) }
    ensures sound { IfOk result IsReplayStorable }
    ensures err { IfErr result (IsFoldFault old effect) }
{
    if !old.takes(&effect) {
        let durable = old.into_durable(alloc)?;
        return folded(alloc, durable, effect);
    }
    let mut made = old;
    made.make(alloc, effect)?;
    Ok(Held::Replayed(made))
}

impl Held {
    /// What outlived a crash, replayed from there on if a replay can go on with it.
    pub(crate) fn of(alloc: Global, durable: Durable) -> Result<Held, NoMemory>
        requires formed { IsFormed durable }
        requires storable { IsStorable durable }
        ensures value { IfOk result (IsHeldOf durable) }
        ensures replayed { IfSome durable.body AreIdsInTime → IfOk result IsReplayed }
    {
        if Replay::goes_on(&durable) {
            let replay = Replay::of(alloc, durable)?;
            return Ok(Held::Replayed(replay));
        }
        Ok(Held::Folded(durable))
    }

    /// With a record more. `Misfit` comes exactly if the record does not fit, and tells the field that is wrong.
    pub(crate) fn fold(self, alloc: Global, effect: Effect) -> Result<Held, FoldFault>
        requires formed { IsFormed (held_in self) }
        requires sound { IsReplayStorable self }
        requires allowed { IsTrue (is_record effect) }
        ensures ok { IfOk result (λ held. fold (held_in self) effect ≡ Some (held_in held)) }
        ensures sound { IfOk result IsReplayStorable }
        ensures err { IfErr result (IsFoldFault (held_in self) effect) }
    {
        match self {
            Held::Replayed(replay) => replayed(alloc, replay, effect),
            Held::Folded(durable) => folded(alloc, durable, effect),
        }
    }

    /// Whether it is storable. What a replay made is.
    pub(crate) fn is_storable(&self, alloc: Global) -> Result<bool, NoMemory>
        requires formed { IsFormed (held_in self.now) }
        requires sound { IsReplayStorable self.now }
        ensures value { IfOk result (λ storable. IsTrue storable ↔ IsStorable (held_in self.now)) }
    {
        match self {
            Held::Replayed(_) => Ok(true),
            Held::Folded(durable) => is_storable(alloc, durable),
        }
    }

    /// All of it in lists.
    pub(crate) fn into_durable(self, alloc: Global) -> Result<Durable, NoMemory>
        ensures value { IfOk result (λ durable. durable ≡ held_in self) }
    {
        match self {
            Held::Replayed(replay) => replay.into_durable(alloc),
            Held::Folded(durable) => Ok(durable),
        }
    }
}
