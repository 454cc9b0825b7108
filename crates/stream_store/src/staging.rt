//! What a commit is going to write.

ghost use Rattle.std.specs.Prelude.{◌≡◌, ◌<◌, ◌≤◌, ◌^◌, ◌++◌, IfOk, IsTrue, OnOk, length, map};
ghost use Rattle.std.specs.List.{list_all};
ghost use Rattle.block_table.specs.Tables.{IsTable};
ghost use Rattle.block_writing.specs.Plans.{IsPlan};
ghost use Rattle.op_records.specs.Allowed.{is_record};
ghost use Rattle.stream_store.specs.Committing.{batch_length};
ghost use Rattle.stream_store.specs.Placing.{can_place};
ghost use Rattle.stream_store.specs.Staging.{IsStaged, block_of, blocks_of};
ghost use Rattle.stream_store.specs.Steps.{blocks_in, takes_away};

use crate::late::LateTable;
use crate::logs::law_bytes;
use crate::steps::{Step, steps_of};
use block_table::{Block, BlockTable};
use block_writing::{Plan, PlanFault, Run, plan};
use effects::Effect;
use gate_log::Batch;
use js_base::NoMemory;
use std::alloc::Global;

/// What a commit is going to write, with all memory that it takes.
#[derive(Drop)]
pub(crate) struct Staged {
    /// The messages, in each file that gets some.
    pub(crate) runs: Vec<Run>,
    /// The records.
    pub(crate) batch: Batch,
    /// What the commit makes of where messages lie.
    pub(crate) steps: Vec<Step>,
    /// The blocks that may hold no message behind it.
    pub(crate) blocks: Vec<Block>,
}

/// Adds blocks to a list.
fn add_blocks(into: &mut Vec<Block>, blocks: &[Block]) -> Result<(), NoMemory>
    ensures ok { OnOk result (into.new.items ≡ into.old.items ++ blocks.now) }
{
    for block in blocks {
        into.push(*block)?;
    }
    Ok(())
}

/// Adds the files of runs, as blocks of which only the file counts.
fn add_files(into: &mut Vec<Block>, runs: &[Run]) -> Result<(), NoMemory>
    ensures ok { OnOk result (into.new.items ≡ into.old.items ++ map block_of runs.now) }
{
    for run in runs {
        into.push(Block {
            file: run.file,
            end: 0,
        })?;
    }
    Ok(())
}

/// Whether messages go by one of these steps.
pub(crate) fn take_away(steps: &[Step]) -> bool
    ensures value { result ≡ takes_away steps.now }
{
    for step in steps {
        match step {
            Step::Put { .. } | Step::Close => {}
            Step::Remove { .. } | Step::Clear => return true,
        }
    }
    false
}

/// The blocks of a table, all of them if messages go, and else the one being written; and the files of runs.
pub(crate) fn left_blocks(
    alloc: Global,
    table: &BlockTable,
    runs: &[Run],
    all: bool,
) -> Result<Vec<Block>, NoMemory>
    ensures value { IfOk result (λ left. left.items ≡ blocks_of all table.now ++ map block_of runs.now) }
    ensures table { OnOk result (IsTable table.now) }
{
    let mut left = Vec::new(alloc);
    if all {
        add_blocks(&mut left, table.older())?;
    }
    if let Some(block) = table.writing() {
        left.push(block)?;
    }
    add_files(&mut left, runs)?;
    Ok(left)
}

/// The plan of these changes, each message of which has a place.
pub(crate) fn planned(
    alloc: Global,
    table: &BlockTable,
    effects: &[Effect],
) -> Result<Plan, NoMemory>
    requires records { IsTrue (list_all is_record effects.now) }
    ensures plan { IfOk result (IsPlan table.now effects.now) }
{
    match plan(alloc, table, effects) {
        Ok(plan) => Ok(plan),
        Err(PlanFault::NoRoom | PlanFault::NoMemory) => Err(NoMemory),
    }
}

/// What a commit of these changes is going to write, by the table before it.
fn stage_by(alloc: Global, table: &BlockTable, effects: &[Effect]) -> Result<Staged, NoMemory>
    requires records { IsTrue (list_all is_record effects.now) }
    requires short { batch_length effects.now < 2 ^ 32 }
    requires room { IsTrue (can_place table.now effects.now) }
    ensures staged { IfOk result (IsStaged table.now effects.now) }
{
    let plan = planned(alloc, table, effects)?;
    let records = plan.batch.as_slice();
    law_bytes(records);
    let batch = Batch::of(alloc, records)?;
    let steps = steps_of(alloc, effects, plan.spots.as_slice())?;
    let all = take_away(steps.as_slice());
    let blocks = left_blocks(alloc, table, plan.runs.as_slice(), all)?;
    Ok(Staged {
        runs: plan.runs,
        batch,
        steps,
        blocks,
    })
}

/// What a commit of these changes is going to write. No step waits for the table then, at `Ok`.
pub(crate) fn stage(
    alloc: Global,
    late: &mut LateTable,
    effects: &[Effect],
) -> Result<Staged, NoMemory>
    requires records { IsTrue (list_all is_record effects.now) }
    requires short { batch_length effects.now < 2 ^ 32 }
    requires room { IsTrue (can_place (blocks_in late.old) effects.now) }
    ensures staged { IfOk result (IsStaged (blocks_in late.old) effects.now) }
    ensures same { blocks_in late.new ≡ blocks_in late.old }
    ensures none { OnOk result (length late.new.steps.items ≤ late.new.taken) }
{
    late.catch_up()?;
    stage_by(alloc, &late.table, effects)
}

/// All of these files that are to be dropped, and all of those.
pub(crate) fn joined(
    alloc: Global,
    these: &[Block],
    those: &[Block],
) -> Result<Vec<Block>, NoMemory>
    ensures value { IfOk result (λ all. all.items ≡ these.now ++ those.now) }
{
    let mut all = Vec::from_slice(alloc, these)?;
    add_blocks(&mut all, those)?;
    Ok(all)
}
