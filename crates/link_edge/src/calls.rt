//! Which calls of an object in memory fail.

ghost use Rattle.std.specs.Prelude.{◌≡◌, ◌≤◌};

use js_base::List;
use std::marker::Model;

/// Counts the calls of an object in memory, and says which of them are to fail. Both counts
/// stop at the greatest number of their type.
#[derive(Drop, Debug)]
pub struct Calls {
    failing: List<u64>,
    made: u64,
    failed: u64,
}

impl Model for Calls {
    ghost use Rattle.link_edge.specs.Calls.{CallState};

    ghost Value = { CallState };

    ghost view = { λ s. record { failing = s.failing; made = s.made; failed = s.failed } };
}

impl Calls {
    ghost use Rattle.link_edge.specs.Calls.{calls_of, next_fails, with_pass, with_failure};

    /// No call was made yet. The calls with these numbers are to fail, counted from 0.
    pub fn new(failing: List<u64>) -> Calls
        ensures fresh { result ≡ calls_of failing }
    {
        Calls {
            failing,
            made: 0,
            failed: 0,
        }
    }

    /// Whether the next call is to fail.
    pub fn next_fails(&self) -> bool
        ensures value { result ≡ next_fails self.now }
    {
        self.failing.as_slice().contains(&self.made)
    }

    /// A call was made that did not fail.
    pub fn pass(&mut self)
        ensures counted { self.new ≡ with_pass self.old }
    {
        self.made = self.made.saturating_add(1);
    }

    /// A call was made that failed.
    pub fn fail(&mut self)
        ensures counted { self.new ≡ with_failure self.old }
        ensures later { self.old.failed ≤ self.new.failed }
    {
        self.made = self.made.saturating_add(1);
        self.failed = self.failed.saturating_add(1);
    }

    /// How many calls failed.
    pub fn faults(&self) -> u64
        ensures value { result ≡ self.now.failed }
    {
        self.failed
    }
}
