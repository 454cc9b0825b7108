//! A notice in memory.

ghost use Rattle.std.specs.Prelude.{◌≡◌, Some};

use crate::notice::{Found, Notice};
use std::marker::Model;

/// A notice that keeps what it was told last, and counts how often it was told. The count stops at the
/// greatest number of its type.
#[derive(Drop, Debug)]
pub struct MemNotice {
    times: u64,
    last: Option<Found>,
}

impl Model for MemNotice {
    ghost use Rattle.link_edge.specs.Notices.{NoticeTold};

    ghost Value = { NoticeTold };

    ghost view = { λ s. record { times = s.times; last = s.last } };
}

impl MemNotice {
    ghost use Rattle.link_edge.specs.Notices.{untold};

    /// A notice that was told nothing yet.
    pub fn new() -> MemNotice
        ensures fresh { result ≡ untold }
    {
        MemNotice {
            times: 0,
            last: None,
        }
    }

    /// How often it was told what was found.
    pub fn times(&self) -> u64
        ensures value { result ≡ self.now.times }
    {
        self.times
    }

    /// What it was told last, if it was told.
    pub fn last(&self) -> Option<Found>
        ensures value { result ≡ self.now.last }
    {
        self.last
    }
}

impl Notice for MemNotice {
    ghost told = { λ s. Some s };

    fn opened(&mut self, found: Found) {
        self.times = self.times.saturating_add(1);
        self.last = Some(found);
    }
}
