//! That the stream of a place goes from thread to thread, as a server of many connections asks of it.
#![tactic(auto)]

use memory_place::Slot;

/// What may go to another thread.
fn goes<T: Send>(_value: &T) {}

/// What several threads may see.
fn is_shared<T: Sync>(_value: &T) {}

/// The stream of a place may go to another thread, and several threads may see it. It does nothing.
pub fn law_crossing(slot: &Slot) {
    goes(slot);
    is_shared(slot);
}
