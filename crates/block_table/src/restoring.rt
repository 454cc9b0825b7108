//! Tables that are made again of what was written down of them.

ghost use Rattle.std.specs.Prelude.{◌≡◌, ◌↔◌, IfOk, IfSome, IsSome};
ghost use Rattle.block_table.specs.Restoring.{table_of};
ghost use Rattle.block_table.specs.Tables.{IsTable};

use crate::block::Block;
use crate::ends::ends_of;
use crate::messages::Messages;
use crate::placed::Placed;
use crate::table::{BlockTable, FIRST_FILE};
use js_base::NoMemory;
use std::alloc::Global;

impl BlockTable {
    /// The table with these messages and blocks, or `None` exactly if there is none: the sequences have to rise, each block has to be in a file of its own
    /// from 2 to 65,535, each message has to lie in what is written of a block, and each block but the one being written has to hold one. It costs the
    /// logarithm of how many messages and blocks there are, for each of them.
    pub fn restore(
        alloc: Global,
        placed: &[Placed],
        older: Vec<Block>,
        writing: Option<Block>,
    ) -> Result<Option<BlockTable>, NoMemory>
        ensures value { IfOk result (λ found. IfSome found (λ table. table ≡ table_of placed.now older.items writing)) }
        ensures table { IfOk result (λ found. IsSome found ↔ IsTable (table_of placed.now older.items writing)) }
    {
        let Some(messages) = Messages::of(alloc, placed)? else {
            return Ok(None);
        };
        let Some(ends) = ends_of(alloc, older.as_slice(), writing)? else {
            return Ok(None);
        };
        if !ends.have_all(placed) || !messages.are_in_each(older.as_slice()) {
            return Ok(None);
        }
        Ok(Some(BlockTable {
            messages,
            older,
            writing,
            free: FIRST_FILE,
        }))
    }
}
