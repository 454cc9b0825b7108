//! A table that takes what a commit made when there is memory for it.

ghost use Rattle.std.specs.Prelude.{◌≡◌, ◌≤◌, length, OnOk};
ghost use Rattle.stream_store.specs.Steps.{blocks_in, with_steps};

use crate::steps::{Step, take_step};
use block_table::BlockTable;
use js_base::NoMemory;
use std::alloc::Global;

/// Where the stored messages lie. A commit may not fail once the log has its batch, so its steps wait beside the table until there is memory to take them.
#[derive(Drop)]
pub(crate) struct LateTable {
    pub(crate) table: BlockTable,
    /// What the last commit made.
    pub(crate) steps: Vec<Step>,
    /// How many of these steps the table has.
    pub(crate) taken: usize,
}

impl LateTable {
    /// A table for which no step waits. It takes no memory.
    pub(crate) fn new(alloc: Global, table: BlockTable) -> LateTable
        ensures value { blocks_in result ≡ table }
    {
        LateTable {
            table,
            steps: Vec::new(alloc),
            taken: 0,
        }
    }

    /// Takes the steps that wait. An `Err` leaves some of them waiting.
    pub(crate) fn catch_up(&mut self) -> Result<(), NoMemory>
        ensures same { blocks_in self.new ≡ blocks_in self.old }
        ensures all { OnOk result (self.new.table ≡ blocks_in self.old) }
        ensures none { OnOk result (length self.new.steps.items ≤ self.new.taken) }
    {
        while self.taken < self.steps.len() {
            let step = self.steps[self.taken];
            take_step(&mut self.table, step)?;
            self.taken += 1;
        }
        Ok(())
    }

    /// Lets steps wait. None is waiting.
    pub(crate) fn wait(&mut self, steps: Vec<Step>)
        requires none { length self.old.steps.items ≤ self.old.taken }
        ensures value { blocks_in self.new ≡ with_steps steps.items (blocks_in self.old) }
    {
        self.steps = steps;
        self.taken = 0;
    }
}
