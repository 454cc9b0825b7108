//! How long what waits for a commit does so.

ghost use Rattle.std.specs.Prelude.{◌≡◌, ◌||◌, ◌&&◌, ◌==◌, length, List, Decides, option_map};
ghost use Rattle.effects.specs.declared.effect.Effect.{Effect};
ghost use Rattle.place_engine.specs.Following.{followed};
ghost use Rattle.place_records.specs.Records.{effects_in};
ghost use Rattle.timers.specs.Bounds.{IsTimerBound};
ghost use Rattle.volume_place.specs.Since.{IsDated, IsOverdue, is_moment, since_by, tail_timers};

use crate::tail::is_now;
use js_base::Moment;
use js_model::What;
use place_records::Made;

/// So many nanoseconds after the first of what waits was made a tick commits it.
const MAX_WAIT: u64 = 1_000_000_000;

/// Since when something waits, once what was made at a moment waits behind it. A moment alone starts nothing.
pub(crate) fn since_with(since: Option<Moment>, made: &Made, now: Moment) -> Option<Moment>
    ensures value { (waiting : List Effect) → IsDated waiting since → result ≡ since_by now since (followed waiting (effects_in made.now)) }
{
    match since {
        Some(first) => Some(first),
        None if is_moment(made) => None,
        None => Some(now),
    }
}

/// The moment from which on a tick commits what waits since then.
pub(crate) fn due(since: Option<Moment>) -> Option<Moment>
    ensures bound { IsTimerBound (tail_timers since) result }
{
    Some(since?.plus(MAX_WAIT))
}

/// Whether this is a tick by which what waits is overdue.
pub(crate) fn is_overdue(since: Option<Moment>, what: &What, now: Moment) -> bool
    ensures value { Decides result (IsOverdue since what.now now) }
{
    match since {
        Some(first) => is_tick(what) && first.plus(MAX_WAIT).as_nanos() <= now.as_nanos(),
        None => false,
    }
}

fn is_tick(what: &What) -> bool
    ensures value { Decides result (what.now ≡ What.Tick) }
{
    matches!(what, What::Tick)
}

/// Whether a step is urgent that is firm or not: also one by which what waits is overdue. `None` if it is not known whether it is firm.
pub(crate) fn is_urgent(firm: Option<bool>, overdue: bool) -> Option<bool>
    ensures value { result ≡ option_map (λ firm. firm || overdue) firm }
{
    Some(firm? || overdue)
}

/// Whether there is no record, or one that tells the moment.
fn is_moment(made: &Made) -> bool
    ensures value { result ≡ is_moment (effects_in made.now) }
{
    match &made.own.effect {
        None => removes_none(made),
        Some(effect) => removes_none(made) && !made.time.seen && is_now(effect),
    }
}

/// Whether no message is removed, and no consumer gives deliveries up.
fn removes_none(made: &Made) -> bool
    ensures value { result ≡ ((length made.now.time.aged.ranges == 0 && length made.now.time.given_up == 0) && length made.now.own.removed.ranges == 0) }
{
    made.time.aged.as_slice().is_empty()
        && made.time.given_up.is_empty()
        && made.own.removed.as_slice().is_empty()
}
