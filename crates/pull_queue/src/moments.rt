//! When pulls end and when their heartbeats come.

ghost use Rattle.std.specs.Prelude.{◌≡◌, ℕ, ◌||◌, map};
ghost use Rattle.std.specs.List.{list_any};
ghost use Rattle.js_model.specs.Advance.{is_over, pull_comes, beaten};
ghost use Rattle.pull_queue.specs.Quiet.{is_due, is_reached};

use js_base::Moment;
use js_model::Pull;

/// Whether there is such a moment, and it has come.
pub(crate) fn is_reached(moment: Option<Moment>, now: Moment) -> bool
    ensures value { result ≡ is_reached now moment }
{
    match moment {
        Some(at) => at.as_nanos() <= now.as_nanos(),
        None => false,
    }
}

/// Whether the pull has ended.
pub(crate) fn is_over(pull: &Pull, now: Moment) -> bool
    ensures value { result ≡ is_over now pull.now }
{
    is_reached(pull.end, now)
}

/// When the pull's next heartbeat comes.
fn next_beat(pull: &Pull) -> Option<Moment>
    ensures value { (now : ℕ) → is_reached now result ≡ pull_comes now pull.now }
{
    if pull.heartbeat == 0 {
        None
    } else {
        Some(pull.mark.plus(pull.heartbeat))
    }
}

/// Whether a heartbeat of the pull has come.
pub(crate) fn pull_comes(pull: &Pull, now: Moment) -> bool
    ensures value { result ≡ pull_comes now pull.now }
{
    is_reached(next_beat(pull), now)
}

/// The earlier of two moments that there may be.
pub(crate) fn earlier(one: Option<Moment>, other: Option<Moment>) -> Option<Moment>
    ensures value { (now : ℕ) → is_reached now result ≡ (is_reached now one || is_reached now other) }
{
    match (one, other) {
        (Some(at), Some(then)) if then.as_nanos() < at.as_nanos() => Some(then),
        (Some(at), _) => Some(at),
        (None, other) => other,
    }
}

/// When the pull ends or its next heartbeat comes.
pub(crate) fn next_of(pull: &Pull) -> Option<Moment>
    ensures value { (now : ℕ) → is_reached now result ≡ is_due now pull.now }
{
    earlier(pull.end, next_beat(pull))
}

/// When the first of the pulls ends or its heartbeat comes.
pub(crate) fn next_of_all(pulls: &[Pull]) -> Option<Moment>
    ensures value { (now : ℕ) → is_reached now result ≡ list_any (is_due now) pulls.now }
{
    let mut next = None;
    for pull in pulls {
        next = earlier(next, next_of(pull));
    }
    next
}

/// Marks a heartbeat of the pull, if one has come.
fn beat(pull: &mut Pull, now: Moment)
    ensures value { pull.new ≡ beaten now pull.old }
{
    if pull_comes(pull, now) {
        pull.mark = now;
    }
}

/// Marks the heartbeats that have come.
pub(crate) fn beat_all(pulls: &mut [Pull], now: Moment)
    ensures value { pulls.new ≡ map (beaten now) pulls.old }
{
    for pull in pulls.iter_mut() {
        beat(pull, now);
    }
}
