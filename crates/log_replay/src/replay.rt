//! What the records of a log have made so far.

ghost use Rattle.std.specs.Prelude.{◌≡◌, IfOk, OnOk, Some};
ghost use Rattle.std.specs.Bool.{OnTrue};
ghost use Rattle.effects.specs.Folding.{fold, vacant};
ghost use Rattle.durable_checks.specs.Storable.{IsStorable};
ghost use Rattle.log_replay.specs.Given.{IsGiven};
ghost use Rattle.log_replay.specs.Taken.{IsBegin, IsTaken};

use crate::body::ReplayedBody;
use effects::{Body, Durable, Effect};
use js_base::NoMemory;
use std::alloc::Global;
use std::marker::Model;

/// What the records of a log have made so far. A record costs the logarithm of what there is, and beside that what it takes away; and one of a consumer
/// the number of consumers, of which a stream has at most 256.
#[derive(Drop)]
pub struct Replay {
    pub(crate) incarnation: u64,
    pub(crate) body: Option<ReplayedBody>,
}

impl Model for Replay {
    ghost use Rattle.effects.specs.declared.durable.Durable.{Durable as Made};

    ghost Value = { Made };

    ghost view = { λ r. record { incarnation = r.incarnation; body = r.body } };
}

/// Whether the record makes the next stream of a place that had one of this incarnation.
fn makes_next(incarnation: u64, effect: &Effect) -> bool
    ensures begin { OnTrue result (IsBegin incarnation effect.now) }
{
    match effect {
        Effect::MakeStream {
            incarnation: next,
            ..
        } => incarnation.checked_add(1) == Some(*next),
        _ => false,
    }
}

/// The stream in lists, if there is one.
fn body_of(alloc: Global, replayed: Option<ReplayedBody>) -> Result<Option<Body>, NoMemory>
    ensures value { IfOk result (λ body. body ≡ replayed) }
{
    match replayed {
        Some(body) => Ok(Some(body.into_body(alloc)?)),
        None => Ok(None),
    }
}

impl Replay {
    /// A place without a stream, whose last one, if it had any, had this incarnation. It takes no memory.
    pub fn vacant(incarnation: u64) -> Replay
        ensures value { result ≡ vacant incarnation }
    {
        Replay {
            incarnation,
            body: None,
        }
    }

    /// All of it in lists. Its cost grows with how much there is.
    pub fn into_durable(self, alloc: Global) -> Result<Durable, NoMemory>
        ensures value { IfOk result (λ durable. durable ≡ self) }
    {
        let incarnation = self.incarnation;
        let body = body_of(alloc, self.body)?;
        Ok(Durable { incarnation, body })
    }

    /// Whether the record can be made of it.
    pub fn takes(&self, effect: &Effect) -> bool
        ensures taken { OnTrue result (IsTaken self.now effect.now) }
    {
        match &self.body {
            None => makes_next(self.incarnation, effect),
            Some(body) => match effect {
                Effect::DropStream => true,
                _ => body.takes(effect),
            },
        }
    }

    /// Makes a record that it takes. What is storable stays so. An `Err` may leave some of what the record says.
    pub fn make(&mut self, alloc: Global, effect: Effect) -> Result<(), NoMemory>
        requires given { IsGiven effect }
        requires storable { IsStorable self.old }
        requires taken { IsTaken self.old effect }
        ensures made { OnOk result (fold self.old effect ≡ Some self.new) }
        ensures storable { OnOk result (IsStorable self.new) }
    {
        match effect {
            Effect::MakeStream {
                incarnation,
                made,
                config,
            } => {
                // A moment is below 2^62.
                let _ = made.as_nanos();
                self.incarnation = incarnation;
                self.body = Some(ReplayedBody::empty(alloc, made, config));
                Ok(())
            }
            Effect::DropStream => {
                self.body = None;
                Ok(())
            }
            change => match self.body.as_mut() {
                Some(body) => body.make(alloc, change),
                None => unreachable!(),
            },
        }
    }
}
