//! The moments of what is stored.

ghost use Rattle.std.specs.Prelude.{◌≡◌, ◌↔◌, map, IfOk, IsTrue};
ghost use Rattle.effects.specs.Restorable.{Rises};

use js_base::{Moment, NoMemory};
use js_model::{Id, Message};
use std::alloc::Global;

/// Whether moments do not fall, and none is after the latest.
fn rise(moments: &[Moment], latest: Moment) -> bool
    ensures value { IsTrue result ↔ Rises (λ n. n) 0 latest moments.now }
{
    let mut earliest = 0;
    for moment in moments {
        let at = moment.as_nanos();
        if at < earliest {
            return false;
        }
        earliest = at;
    }
    earliest <= latest.as_nanos()
}

/// The moments of messages.
fn moments_of(alloc: Global, messages: &[Message]) -> Result<Vec<Moment>, NoMemory>
    ensures value { IfOk result (λ found. found.items ≡ map (λ m. m.at) messages.now) }
{
    Ok(messages.iter().map(|message| message.at).collect(alloc)?)
}

/// The moments of ids.
fn id_moments(alloc: Global, ids: &[Id]) -> Result<Vec<Moment>, NoMemory>
    ensures value { IfOk result (λ found. found.items ≡ map (λ i. i.at) ids.now) }
{
    Ok(ids.iter().map(|known| known.at).collect(alloc)?)
}

/// Whether the moments of messages do not fall, and none is after the latest.
pub(crate) fn messages_rise(
    alloc: Global,
    messages: &[Message],
    latest: Moment,
) -> Result<bool, NoMemory>
    ensures value { IfOk result (λ rises. IsTrue rises ↔ Rises (λ m. m.at) 0 latest messages.now) }
{
    let moments = moments_of(alloc, messages)?;
    Ok(rise(moments.as_slice(), latest))
}

/// Whether the moments of ids do not fall, and none is after the latest.
pub(crate) fn ids_rise(alloc: Global, ids: &[Id], latest: Moment) -> Result<bool, NoMemory>
    ensures value { IfOk result (λ rises. IsTrue rises ↔ Rises (λ i. i.at) 0 latest ids.now) }
{
    let moments = id_moments(alloc, ids)?;
    Ok(rise(moments.as_slice(), latest))
}
