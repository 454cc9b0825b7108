//! The messages of a store in a list.

ghost use Rattle.std.specs.Prelude.{◌≡◌, IfOk};

use crate::store::MessageStore;
use js_base::{List, NoMemory};
use js_model::{Message, copy_message};
use std::alloc::Global;

impl MessageStore {
    /// The messages in the order of their sequences, whose texts are shared. Its cost grows with their number.
    pub fn to_list(&self, alloc: Global) -> Result<List<Message>, NoMemory>
        ensures value { IfOk result (λ listed. listed ≡ self.now) }
    {
        let mut listed = List::new(alloc);
        for message in self.messages.values() {
            listed.push(copy_message(message)?)?;
        }
        Ok(listed)
    }
}
