//! Copies of consumers. Their texts are shared.

ghost use Rattle.std.specs.Prelude.{◌≡◌, IfOk};

use crate::consumer::{Consumer, Pull};
use crate::copies::copy_consumer_config;
use js_base::{List, NoMemory};
use std::alloc::Global;

/// A copy of items that are copied by their bytes.
fn copy_items<T: Copy>(alloc: Global, items: &[T]) -> Result<List<T>, NoMemory>
    ensures copy { IfOk result (λ copy. copy ≡ items.now) }
{
    Ok(List::from_vec(Vec::from_slice(alloc, items)?))
}

/// A copy of a pull.
pub fn copy_pull(pull: &Pull) -> Result<Pull, NoMemory>
    ensures copy { IfOk result (λ copy. copy ≡ pull.now) }
{
    Ok(Pull {
        reply: pull.reply.clone()?,
        batch: pull.batch,
        bytes: pull.bytes,
        end: pull.end,
        no_wait: pull.no_wait,
        heartbeat: pull.heartbeat,
        mark: pull.mark,
    })
}

fn copy_pulls(alloc: Global, pulls: &[Pull]) -> Result<List<Pull>, NoMemory>
    ensures copy { IfOk result (λ copy. copy ≡ pulls.now) }
{
    let mut copy = List::new(alloc);
    for pull in pulls {
        copy.push(copy_pull(pull)?)?;
    }
    Ok(copy)
}

/// A copy of a consumer.
pub fn copy_consumer(alloc: Global, consumer: &Consumer) -> Result<Consumer, NoMemory>
    ensures copy { IfOk result (λ copy. copy ≡ consumer.now) }
{
    Ok(Consumer {
        name: consumer.name.clone()?,
        made: consumer.made,
        config: copy_consumer_config(&consumer.config)?,
        picks: copy_items(alloc, consumer.picks.as_slice())?,
        cursor: consumer.cursor,
        dseq: consumer.dseq,
        pending: copy_items(alloc, consumer.pending.as_slice())?,
        given_up: copy_items(alloc, consumer.given_up.as_slice())?,
        waiting: copy_pulls(alloc, consumer.waiting.as_slice())?,
        mark: consumer.mark,
    })
}
