//! What a commit makes of where messages lie.

ghost use Rattle.std.specs.Prelude.{◌≡◌, ◌≤◌, IfOk, OnErr, OnOk, drop, length};
ghost use Rattle.stream_store.specs.Steps.{AddsStep, batch_steps, with_step};

use block_table::{BlockTable, PutFault};
use effects::Effect;
use js_base::{NoMemory, Spot};
use std::alloc::Global;

/// What one change makes of where messages lie.
#[derive(Clone, Copy, Debug)]
pub(crate) enum Step {
    /// A message of this sequence is stored at a spot.
    Put { seq: u64, spot: Spot },
    /// The messages from `low` to `high` go.
    Remove { low: u64, high: u64 },
    /// All messages go.
    Clear,
    /// The batch ends, behind which the block being written may be left.
    Close,
}

/// Takes a step into a table. A message that does not fit is left out. An `Err` changes nothing.
pub(crate) fn take_step(table: &mut BlockTable, step: Step) -> Result<(), NoMemory>
    ensures ok { OnOk result (table.new ≡ with_step step table.old) }
    ensures err { OnErr result (table.new ≡ table.old) }
{
    match step {
        Step::Put { seq, spot } => match table.put(seq, spot) {
            Ok(()) | Err(PutFault::Misfit) => Ok(()),
            Err(PutFault::NoMemory) => Err(NoMemory),
        },
        Step::Remove { low, high } => {
            table.remove(low, high);
            Ok(())
        }
        Step::Clear => {
            table.clear();
            Ok(())
        }
        Step::Close => {
            table.close();
            Ok(())
        }
    }
}

/// Adds the step of a change, if it has one. A message lies at the spot behind those that are used; how many are used then is told.
fn add_step(
    steps: &mut Vec<Step>,
    effect: &Effect,
    spots: &[Spot],
    used: usize,
) -> Result<usize, NoMemory>
    requires within { used ≤ length spots.now }
    ensures added { IfOk result (λ after. AddsStep steps.old.items effect.now (drop used spots.now) steps.new.items (drop after spots.now)) }
    ensures within { IfOk result (λ after. after ≤ length spots.now) }
{
    match effect {
        Effect::PutHere { seq, .. } => {
            let Some(spot) = spots.get(used) else {
                return Ok(used);
            };
            steps.push(Step::Put {
                seq: *seq,
                spot: *spot,
            })?;
            Ok(used + 1)
        }
        Effect::Remove { low, high } => {
            steps.push(Step::Remove {
                low: *low,
                high: *high,
            })?;
            Ok(used)
        }
        Effect::MakeStream { .. } | Effect::DropStream => {
            steps.push(Step::Clear)?;
            Ok(used)
        }
        _ => Ok(used),
    }
}

/// The steps of a batch of changes, whose messages lie at these spots.
pub(crate) fn steps_of(
    alloc: Global,
    effects: &[Effect],
    spots: &[Spot],
) -> Result<Vec<Step>, NoMemory>
    ensures value { IfOk result (λ steps. steps.items ≡ batch_steps effects.now spots.now) }
{
    let mut steps = Vec::new(alloc);
    let mut used = 0;
    for effect in effects {
        used = add_step(&mut steps, effect, spots, used)?;
    }
    steps.push(Step::Close)?;
    Ok(steps)
}
