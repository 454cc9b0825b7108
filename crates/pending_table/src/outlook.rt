//! When the next entry becomes due.

ghost use Rattle.std.specs.Prelude.{◌≡◌, ◌≤◌, ◌<◌, IfSome};
ghost use Rattle.std.specs.Bool.{OnTrue};
ghost use Rattle.js_model.specs.declared.consumer.Pending.{Pending};
ghost use Rattle.pending_table.specs.Quiet.{IsForeseen};

use js_base::Moment;
use timer_bounds::earlier;

/// No entry becomes due after `since` and before `next`; without `next`, none does after `since`.
#[derive(Clone, Copy)]
pub(crate) struct Outlook {
    pub(crate) since: Moment,
    pub(crate) next: Option<Moment>,
}

impl Outlook {
    /// That of no entries.
    pub(crate) fn empty() -> Outlook {
        Outlook {
            since: Moment::of(0).unwrap(),
            next: None,
        }
    }

    /// With one more entry, which is due at the moment.
    pub(crate) fn and(self, due: Moment) -> Outlook
        ensures here { (p : Pending) → p.due ≡ due → IsForeseen result p }
        ensures others { (p : Pending) → IsForeseen self p → IsForeseen result p }
    {
        if due.as_nanos() <= self.since.as_nanos() {
            return self;
        }
        Outlook {
            since: self.since,
            next: earlier(self.next, Some(due)),
        }
    }

    /// Whether it tells what comes next after the moment.
    pub(crate) fn covers(&self, now: Moment) -> bool
        ensures since { OnTrue result (self.now.since ≤ now) }
        ensures next { OnTrue result (IfSome self.now.next (λ next. now < next)) }
    {
        self.since.as_nanos() <= now.as_nanos() && is_before(now, self.next)
    }
}

/// Whether the moment comes before the next, if there is one.
fn is_before(now: Moment, next: Option<Moment>) -> bool
    ensures before { OnTrue result (IfSome next (λ at. now < at)) }
{
    match next {
        Some(next) => now.as_nanos() < next.as_nanos(),
        None => true,
    }
}
