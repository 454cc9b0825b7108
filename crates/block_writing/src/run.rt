//! Messages of a commit that follow each other in a file.

ghost use Rattle.std.specs.Prelude.{◌≡◌, ◌++◌, ◌∷◌, [], IsTrue, OnOk};
ghost use Rattle.op_records.specs.Blocks.{is_block_message, spelled_message};
ghost use Rattle.block_writing.specs.Planning.{run_at, with_message};

use js_base::{List, NoMemory, Spot};
use js_model::Message;
use op_records::write_message;
use std::alloc::Global;

/// Messages of a commit that follow each other in a file, as bytes.
#[derive(Drop)]
pub struct Run {
    /// The number of the file.
    pub file: u32,
    /// The offset of the first message in the file.
    pub at: u32,
    pub bytes: List<u8>,
}

/// Begins a run with a message.
fn begin_run(
    alloc: Global,
    runs: &mut Vec<Run>,
    spot: Spot,
    message: &Message,
) -> Result<(), NoMemory>
    requires message { IsTrue (is_block_message message.now) }
    ensures ok { OnOk result (runs.new.items ≡ runs.old.items ++ run_at spot (spelled_message message.now) ∷ []) }
{
    let mut bytes = Vec::new(alloc);
    write_message(alloc, message, &mut bytes)?;
    runs.push(Run {
        file: spot.file,
        at: spot.at,
        bytes: List::from_vec(bytes),
    })?;
    Ok(())
}

/// Adds a message: behind the last run if that is in the message's file, and else as the beginning of a run. An `Err` may leave some run out.
pub(crate) fn add_message(
    alloc: Global,
    runs: &mut Vec<Run>,
    spot: Spot,
    message: &Message,
) -> Result<(), NoMemory>
    requires message { IsTrue (is_block_message message.now) }
    ensures ok { OnOk result (runs.new.items ≡ with_message runs.old.items spot (spelled_message message.now)) }
{
    let Some(last) = runs.pop() else {
        return begin_run(alloc, runs, spot, message);
    };
    if last.file != spot.file {
        runs.push(last)?;
        return begin_run(alloc, runs, spot, message);
    }
    let mut bytes = last.bytes.into_vec();
    write_message(alloc, message, &mut bytes)?;
    runs.push(Run {
        file: last.file,
        at: last.at,
        bytes: List::from_vec(bytes),
    })?;
    Ok(())
}
