//! Planning a commit.

ghost use Rattle.std.specs.Prelude.{◌≡◌, Some, None, IfOk, IsErrOf, IsTrue};
ghost use Rattle.std.specs.List.{list_all};
ghost use Rattle.op_records.specs.Allowed.{is_record};
ghost use Rattle.block_writing.specs.Planning.{begun, planned};
ghost use Rattle.block_writing.specs.Plans.{IsPlan};

use crate::commit::Plan;
use crate::fault::PlanFault;
use block_table::BlockTable;
use effects::Effect;
use std::alloc::Global;

/// Plans the commit of these changes: each message goes to the next spot of the table, as far as the messages before it leave one, and into the run of its
/// file. `NoRoom` comes only if there is none for a message. Nothing is written, and the table stays as it is.
pub fn plan(alloc: Global, table: &BlockTable, effects: &[Effect]) -> Result<Plan, PlanFault>
    requires allowed { IsTrue (list_all is_record effects.now) }
    ensures plan { IfOk result (IsPlan table.now effects.now) }
    ensures no_room { IsErrOf result PlanFault.NoRoom → planned table.now effects.now (Some (begun table.now)) ≡ None }
{
    let mut made = Plan {
        batch: Vec::new(alloc),
        spots: Vec::new(alloc),
        runs: Vec::new(alloc),
    };
    let mut placing = table.placing();
    for effect in effects {
        made.add(alloc, table, &mut placing, effect)?;
    }
    Ok(made)
}
