//! Moments of the server's clock.

ghost use Rattle.std.specs.Prelude.{◌≡◌, ◌^◌, ◌<◌, ◌≤◌, ◌↔◌, IfSome, IsNone};
ghost use Rattle.js_base.specs.Moments.{plus};

use std::marker::Model;

/// A moment in nanoseconds since 1970, below 2^62, which is in the year 2116.
#[derive(Clone, Copy, Debug, PartialEq, Eq, PartialOrd, Ord)]
pub struct Moment {
    ns: u64,
}

impl Model for Moment {
    ghost use Rattle.std.specs.Prelude.{ℕ, ◌<◌, ◌^◌};

    ghost Value = { ℕ };

    ghost view = { λ moment. moment.ns };

    ghost invariant = { λ moment. moment.ns < 2 ^ 62 };

    ghost inverse = { λ n. record { ns = n } };
}

impl Moment {
    /// The moment of so many nanoseconds since 1970, or `None` from 2^62 on.
    pub fn of(ns: u64) -> Option<Moment>
        ensures some { IfSome result (λ moment. moment ≡ ns) }
        ensures none { IsNone result ↔ (2 ^ 62 ≤ ns) }
    {
        if ns < 1 << 62 {
            Some(Moment { ns })
        } else {
            None
        }
    }

    /// The moment so many nanoseconds later, or the last one, 2^62 - 1, if that would be past it.
    pub fn plus(self, ns: u64) -> Moment
        ensures { result ≡ plus self ns }
    {
        let last = (1 << 62) - 1;
        let sum = self.ns.saturating_add(ns);
        if sum < last {
            Moment { ns: sum }
        } else {
            Moment { ns: last }
        }
    }

    /// The nanoseconds since 1970.
    pub fn as_nanos(self) -> u64
        ensures value { result ≡ self }
        ensures bound { result < 2 ^ 62 }
    {
        self.ns
    }
}
