//! A list of the consumers.

ghost use Rattle.std.specs.Prelude.{◌≡◌, [], ◌++◌, None, IfOk};
ghost use Rattle.std.specs.Option.{option_to_list};

use js_base::{List, NoMemory};
use js_model::Consumer;
use replayed_consumer::ReplayedConsumer;
use std::alloc::Global;

/// Takes out the first consumer, if there is one. It takes no memory, and its cost grows with their number.
fn take_first_consumer(consumers: &mut Vec<ReplayedConsumer>) -> Option<ReplayedConsumer>
    ensures first { consumers.old.items ≡ option_to_list result ++ consumers.new.items }
    ensures none { result ≡ None → consumers.old.items ≡ [] }
{
    if consumers.is_empty() {
        return None;
    }
    Some(consumers.remove(0))
}

/// The consumers in the order of their names, of which a stream has at most 256.
pub(crate) fn consumers_of(
    alloc: Global,
    replayed: Vec<ReplayedConsumer>,
) -> Result<List<Consumer>, NoMemory>
    ensures value { IfOk result (λ consumers. consumers ≡ replayed.items) }
{
    let mut left = replayed;
    let mut consumers = List::new(alloc);
    while let Some(consumer) = take_first_consumer(&mut left) {
        consumers.push(consumer.into_consumer(alloc)?)?;
    }
    Ok(consumers)
}
