//! Bounds of snapshots, by numbers.

ghost use Rattle.std.specs.Prelude.{◌≡◌, ◌<◌, ◌≤◌, ◌+◌, ◌*◌, ◌^◌, List, length, sum_by};
ghost use Rattle.js_model.specs.declared.stream.Id.{Id};
ghost use Rattle.snapshot_bound.specs.Bounds.{bound_by, id_length, most_held};

/// How many messages a consumer may hold at most.
const MOST_HELD: u64 = 65_536;

/// How many bytes a snapshot has for a message at most.
const MESSAGE: u64 = 32;

/// How many bytes it has for a message that a consumer holds at most.
const HELD: u64 = 32;

/// How many bytes a snapshot has for so many ids, whose texts have so many bytes together.
pub fn ids_length(count: u64, text_bytes: u64) -> u64
    requires count { count ≤ 2 ^ 20 }
    requires text_bytes { text_bytes ≤ 2 ^ 61 }
    ensures value { (ids : List Id) → count ≡ length ids → text_bytes ≡ sum_by (λ i. length i.id) ids → result ≡ sum_by id_length ids }
    ensures bound { result ≤ 2 ^ 62 }
{
    count * 18 + text_bytes
}

/// What the snapshot of a stream comes to at most, in bytes, by the part that no count tells, by how long its ids are in it, and by how many messages and consumers
/// there are.
pub fn bound_by(fixed: u64, ids: u64, messages: u64, consumers: u64) -> u64
    requires fixed { fixed ≤ 2 ^ 62 }
    requires ids { ids ≤ 2 ^ 62 }
    requires messages { messages ≤ 2 ^ 32 }
    requires consumers { consumers ≤ 2 ^ 16 }
    ensures value { result ≡ bound_by fixed ids messages consumers }
{
    let held = consumers * (HELD * most_held(messages));
    fixed + (93 + ids + MESSAGE * messages + held)
}

/// By how many bytes a message may raise it, with an id of so many bytes, where there are so many consumers.
pub fn message_growth(id: u64, consumers: u64) -> u64
    requires id { id < 2 ^ 63 }
    requires consumers { consumers ≤ 2 ^ 16 }
    ensures value { result ≡ 50 + id + 32 * consumers }
{
    50 + id + HELD * consumers
}

/// Of so many messages a consumer may hold so many.
pub(crate) fn most_held(messages: u64) -> u64
    ensures value { result ≡ most_held messages }
{
    messages.min(MOST_HELD)
}
