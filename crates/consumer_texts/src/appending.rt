//! Several messages at once.

ghost use Rattle.std.specs.Prelude.{◌≡◌, ◌++◌, OnOk, OnErr};

use js_base::{List, NoMemory, Out, Outs};
use std::alloc::Global;
use std::mem;

/// Adds all of the messages, or none if memory runs out.
pub fn append(alloc: Global, outs: &mut Outs, mut more: Vec<Out>) -> Result<(), NoMemory>
    ensures ok { OnOk result (outs.new ≡ outs.old ++ more.items) }
    ensures err { OnErr result (outs.new ≡ outs.old) }
{
    let mut all = mem::replace(outs, List::new(alloc)).into_vec();
    let appended = all.append(&mut more);
    *outs = List::from_vec(all);
    appended?;
    Ok(())
}
