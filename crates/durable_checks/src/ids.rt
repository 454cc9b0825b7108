//! The ids of a stream.

ghost use Rattle.std.specs.Prelude.{◌≡◌, ◌||◌, not, true, IfOk};
ghost use Rattle.js_base.specs.Bytes.{Bytes, same};
ghost use Rattle.model_laws.specs.SoundTests.{are_different};
ghost use Rattle.durable_checks.specs.Known.{knows};

use js_base::NoMemory;
use js_model::Id;
use std::alloc::Global;
use std::collections::BTreeMap;

/// The sequence of each text that was seen.
type Known<'a> = BTreeMap<&'a [u8], u64>;

/// Adds a text, and tells whether it is a new one. One that is not changes nothing.
fn add<'a>(known: &mut Known<'a>, text: &'a [u8], seq: u64) -> Result<bool, NoMemory>
    ensures new { IfOk result (λ new. new ≡ not (knows known.old text.now)) }
    ensures added { IfOk result (λ new. new ≡ true → (other : Bytes) → knows known.new other ≡ (same text.now other || knows known.old other)) }
{
    if known.get(text).is_some() {
        return Ok(false);
    }
    known.insert(text, seq)?;
    Ok(true)
}

/// Whether no id comes twice.
pub(crate) fn are_different(alloc: Global, ids: &[Id]) -> Result<bool, NoMemory>
    ensures value { IfOk result (λ different. different ≡ are_different ids.now) }
{
    let mut known = BTreeMap::new(alloc);
    let mut at = ids.len();
    while at > 0 {
        at -= 1;
        let id = &ids[at];
        if !add(&mut known, id.id.as_slice(), id.seq)? {
            return Ok(false);
        }
    }
    Ok(true)
}
