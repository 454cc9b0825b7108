//! What a place sent, and whether it refused.

ghost use Rattle.std.specs.Prelude.{◌≡◌, take};
ghost use Rattle.js_model.specs.Events.{is_refused};

use js_base::{List, Outs};
use js_model::Reply;
use std::alloc::Global;
use std::mem;

/// Whether the answer is a refusal.
pub(crate) fn is_refused(reply: &Reply) -> bool
    ensures value { result ≡ is_refused reply.now }
{
    matches!(reply, Reply::Refused(_))
}

/// Keeps the first outputs, so many of them.
pub(crate) fn cut_to(alloc: Global, count: usize, outs: &mut Outs)
    ensures value { outs.new ≡ take count outs.old }
{
    let mut items = mem::replace(outs, List::new(alloc)).into_vec();
    items.truncate(count);
    *outs = List::from_vec(items);
}
