//! What a hold on a place leaves for the calls after it.

ghost use Rattle.std.specs.Prelude.{◌≡◌, ◌&&◌, Some, if◌then◌else◌};
ghost use Rattle.js_api.specs.Worlds.{place_or};
ghost use Rattle.desk_answers.specs.Became.{is_dropped};
ghost use Rattle.desk_places.specs.Dropping.{is_drop};
ghost use Rattle.desk_places.specs.Held.{is_held};

use js_api::Became;
use js_model::{PlaceAt, Reply, What};

/// Whether a stream was dropped by what became so, if that was asked.
pub fn is_dropped(asked: bool, became: &Became) -> bool
    ensures value { result ≡ (asked && is_dropped became.now) }
{
    let done = match became {
        Became::Made(reply) => matches!(reply, Reply::Done),
        Became::Unsaid { refused } => !*refused,
        Became::Ticked => false,
        Became::Nothing => false,
        Became::Broke { stream: _ } => false,
        Became::Stopped { stream: _ } => false,
        Became::Gone => false,
    };
    asked && done
}

/// Whether a stream is asked to be dropped.
pub fn is_drop(what: &What) -> bool
    ensures value { result ≡ is_drop what.now }
{
    matches!(what, What::Drop { .. })
}

/// The place of the last hold after one at a place that became so. One counts if a step was made there, also if the volume failed in it.
pub fn last_of(became: &Became, at: PlaceAt, before: Option<PlaceAt>) -> Option<PlaceAt>
    ensures value { result ≡ (if is_held became.now then Some at else before) }
{
    match became {
        Became::Made(_) => Some(at),
        Became::Unsaid { refused: _ } => Some(at),
        Became::Ticked => Some(at),
        Became::Broke { stream: _ } => Some(at),
        Became::Nothing => before,
        Became::Stopped { stream: _ } => before,
        Became::Gone => before,
    }
}

/// The place that was found, or the one before.
pub fn place_or(before: u32, found: Option<PlaceAt>) -> u32
    ensures value { result ≡ place_or before found }
{
    match found {
        Some(at) => at.place,
        None => before,
    }
}
