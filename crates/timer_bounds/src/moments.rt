//! The earlier of two moments.

ghost use Rattle.std.specs.Prelude.{◌≡◌, ℕ, List, ◌++◌};
ghost use Rattle.timers.specs.Bounds.{IsTimerBound};
ghost use Rattle.timer_bounds.specs.Earlier.{earlier};

use js_base::Moment;

/// The earlier of two moments, as far as they are there. If no timer of some is before the one, and no timer of others before the other, none of all
/// is before the result.
pub fn earlier(one: Option<Moment>, other: Option<Moment>) -> Option<Moment>
    ensures value { result ≡ earlier one other }
    ensures bound { (ones others : List ℕ) → IsTimerBound ones one → IsTimerBound others other → IsTimerBound (ones ++ others) result }
{
    match (one, other) {
        (Some(at), Some(then)) if then.as_nanos() < at.as_nanos() => Some(then),
        (Some(at), _) => Some(at),
        (None, other) => other,
    }
}
