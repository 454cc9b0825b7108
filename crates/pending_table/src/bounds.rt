//! What holds of all entries below a fork, so that a search can pass over them.

ghost use Rattle.std.specs.Prelude.{◌≡◌, ◌≤◌, ◌<◌, false, max, min};
ghost use Rattle.std.specs.Bool.{OnFalse, OnTrue};
ghost use Rattle.js_model.specs.declared.consumer.Pending.{Pending};
ghost use Rattle.pending_table.specs.Asked.{is_spent, passes, IsWithin};

use crate::asked::Asked;
use js_base::Moment;
use js_model::Pending;

/// The least and the greatest due moment and the greatest count of some entries, and the least due moment of those with that count.
#[derive(Clone, Copy)]
pub(crate) struct Bounds {
    pub(crate) due: Moment,
    pub(crate) latest: Moment,
    pub(crate) count: u64,
    pub(crate) spent: Moment,
}

impl Bounds {
    /// Those of one entry.
    pub(crate) fn of(entry: &Pending) -> Bounds
        ensures within { IsWithin result entry.now }
    {
        Bounds {
            due: entry.due,
            latest: entry.due,
            count: entry.count,
            spent: entry.due,
        }
    }

    /// Those of both.
    pub(crate) fn and(self, other: Bounds) -> Bounds
        ensures these { (p : Pending) → IsWithin self p → IsWithin result p }
        ensures others { (p : Pending) → IsWithin other p → IsWithin result p }
    {
        let due = earlier(self.due, other.due);
        let latest = later(self.latest, other.latest);
        if self.count < other.count {
            Bounds {
                due,
                latest,
                ..other
            }
        } else if other.count < self.count {
            Bounds {
                due,
                latest,
                ..self
            }
        } else {
            let spent = earlier(self.spent, other.spent);
            Bounds {
                due,
                latest,
                count: self.count,
                spent,
            }
        }
    }

    /// Whether an entry that is asked for may be within these bounds.
    pub(crate) fn may_have(&self, asked: &Asked) -> bool
        ensures none { OnFalse result ((p : Pending) → IsWithin self.now p → passes asked.now p ≡ false) }
    {
        match asked {
            Asked::Due(now) => self.due.as_nanos() <= now.as_nanos(),
            Asked::Spent(now, max) => self.may_have_spent(*now, *max),
        }
    }

    /// Whether an entry may be within these bounds that is due after the moment.
    pub(crate) fn may_have_after(&self, now: Moment) -> bool
        ensures none { OnFalse result ((p : Pending) → IsWithin self.now p → p.due ≤ now) }
    {
        now.as_nanos() < self.latest.as_nanos()
    }

    /// Whether all entries within these bounds are due after the moment.
    pub(crate) fn are_after(&self, now: Moment) -> bool
        ensures before { OnTrue result (now < self.now.due) }
    {
        now.as_nanos() < self.due.as_nanos()
    }

    /// Whether an entry with this count that is due may be within these bounds.
    fn may_have_spent(&self, now: Moment, max: u64) -> bool
        ensures none { OnFalse result ((p : Pending) → IsWithin self.now p → is_spent now max p ≡ false) }
    {
        if self.count == max {
            self.spent.as_nanos() <= now.as_nanos()
        } else {
            max < self.count && self.due.as_nanos() <= now.as_nanos()
        }
    }
}

/// The earlier of two moments.
fn earlier(one: Moment, other: Moment) -> Moment
    ensures value { result ≡ min one other }
{
    if one.as_nanos() < other.as_nanos() {
        one
    } else {
        other
    }
}

/// The later of two moments.
fn later(one: Moment, other: Moment) -> Moment
    ensures value { result ≡ max one other }
{
    if one.as_nanos() < other.as_nanos() {
        other
    } else {
        one
    }
}
