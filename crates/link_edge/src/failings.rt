//! How often a link failed, and how often a door found no memory, as they tell.

ghost use Rattle.std.specs.Prelude.{◌≡◌};
ghost use Rattle.link_edge.specs.Failings.{no_failings, with_call, with_failed_give, with_starved_call, none_starved, with_accept, with_starved_accept};

/// How often a give of a link failed, how often a call of it found no memory, and how many calls came after the first of these. Each count stops at
/// the greatest number of its type.
#[derive(Clone, Copy, Debug)]
pub struct Failings {
    /// How often a give failed.
    pub gives: u64,
    /// How often a take or a give found no memory.
    pub starved: u64,
    /// How many takes and gives came after the first of these.
    pub later: u64,
}

impl Failings {
    /// Nothing failed yet.
    pub fn none() -> Failings
        ensures value { result ≡ no_failings }
    {
        Failings {
            gives: 0,
            starved: 0,
            later: 0,
        }
    }

    /// A call was made. It is counted if one failed before.
    pub fn count_call(&mut self)
        ensures counted { self.new ≡ with_call self.old }
    {
        if self.gives == 0 && self.starved == 0 {
            return;
        }
        self.later = self.later.saturating_add(1);
    }

    /// A give failed.
    pub fn fail_give(&mut self)
        ensures counted { self.new ≡ with_failed_give self.old }
    {
        self.gives = self.gives.saturating_add(1);
    }

    /// A call found no memory.
    pub fn starve(&mut self)
        ensures counted { self.new ≡ with_starved_call self.old }
    {
        self.starved = self.starved.saturating_add(1);
    }
}

/// How often an accept of a door found no memory, and how many accepts came after the first of these. Each count stops at the greatest number of its
/// type.
#[derive(Clone, Copy, Debug)]
pub struct Starved {
    /// How often an accept found no memory.
    pub accepts: u64,
    /// How many accepts came after the first of these.
    pub later: u64,
}

impl Starved {
    /// No accept found no memory yet.
    pub fn none() -> Starved
        ensures value { result ≡ none_starved }
    {
        Starved {
            accepts: 0,
            later: 0,
        }
    }

    /// An accept was made. It is counted if one before it found no memory.
    pub fn count_accept(&mut self)
        ensures counted { self.new ≡ with_accept self.old }
    {
        if self.accepts == 0 {
            return;
        }
        self.later = self.later.saturating_add(1);
    }

    /// An accept found no memory.
    pub fn starve(&mut self)
        ensures counted { self.new ≡ with_starved_accept self.old }
    {
        self.accepts = self.accepts.saturating_add(1);
    }
}
