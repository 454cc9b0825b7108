//! The ids of a window in a list.

ghost use Rattle.std.specs.Prelude.{◌≡◌, IfOk};

use crate::window::DedupWindow;
use js_base::{List, NoMemory};
use js_model::Id;
use std::alloc::Global;

impl DedupWindow {
    /// The ids in the order of their adding, whether or not they still count. Their texts are shared, and its cost grows with their number.
    pub fn to_list(&self, alloc: Global) -> Result<List<Id>, NoMemory>
        ensures value { IfOk result (λ listed. listed ≡ self.now.ids) }
    {
        let mut listed = List::new(alloc);
        for id in self.ids.iter() {
            listed.push(copy_id(id)?)?;
        }
        Ok(listed)
    }
}

/// A copy of an id.
fn copy_id(id: &Id) -> Result<Id, NoMemory>
    ensures copy { IfOk result (λ copy. copy ≡ id.now) }
{
    Ok(Id {
        id: id.id.clone()?,
        seq: id.seq,
        at: id.at,
    })
}
