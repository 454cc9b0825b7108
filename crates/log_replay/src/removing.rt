//! Messages that leave a store.

ghost use Rattle.std.specs.Prelude.{◌≡◌, ℕ, ◌==◌, filter, find, not};
ghost use Rattle.std.specs.Option.{option_map};
ghost use Rattle.effects.specs.Ranges.{is_within};
ghost use Rattle.js_model.specs.Lists.{Between};

use message_store::MessageStore;

/// The least sequence of a range, both ends too, that is stored.
fn first_within(messages: &MessageStore, low: u64, high: u64) -> Option<u64>
    requires ascend { (end : ℕ) × Between (λ m. m.seq) 1 end messages.now }
    ensures value { result ≡ option_map (λ m. m.seq) (find (λ m. is_within low high m.seq) messages.now) }
{
    let seq = messages.at_or_after(low)?.seq;
    if seq <= high { Some(seq) } else { None }
}

/// Takes out the message of a sequence, if there is one. It takes no memory.
fn remove_one(messages: &mut MessageStore, seq: u64)
    ensures left { messages.new ≡ filter (λ m. not (m.seq == seq)) messages.old }
{
    messages.remove(seq);
}

/// Takes out the messages of a range of sequences, both ends too. It takes no memory, and its cost grows with their number.
pub(crate) fn remove_range(messages: &mut MessageStore, low: u64, high: u64)
    requires ascend { (end : ℕ) × Between (λ m. m.seq) 1 end messages.old }
    ensures left { messages.new ≡ filter (λ m. not (is_within low high m.seq)) messages.old }
{
    while let Some(seq) = first_within(messages, low, high) {
        remove_one(messages, seq);
    }
}
