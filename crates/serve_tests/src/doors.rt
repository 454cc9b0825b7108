//! Doors that give links out as a test asks.

use link_edge::{Accept, Door, Give, Link, MemDoor, MemLink, Take};
use tcp_edge::Rings;

/// A door that gives a link out only if all that it gave out are back, and at which nobody is meanwhile.
#[derive(Drop)]
pub(crate) struct OneByOne {
    pub(crate) door: MemDoor,
}

impl Door for OneByOne {
    ghost use Rattle.std.specs.Prelude.{None};

    type Link = MemLink;

    ghost answered = { λ _. None };

    ghost gave = { λ _. None };

    ghost back = { λ _. None };

    ghost starved = { λ _. None };

    ghost faults = { λ s. s.door.calls.failed };

    fn accept(&mut self) -> Accept<MemLink> {
        if self.door.back().len() < self.door.gave() {
            Accept::Quiet
        } else {
            self.door.accept()
        }
    }

    fn done(&mut self, link: MemLink) {
        self.door.done(link);
    }
}

/// The call that finds no memory.
#[derive(Clone, Copy, Debug, PartialEq, Eq)]
pub(crate) enum Call {
    Accept,
    Take,
    Give,
}

/// A link that finds no memory at one call.
#[derive(Clone, Copy, Debug)]
pub(crate) struct StarvedLink {
    at: Call,
}

impl Link for StarvedLink {
    ghost use Rattle.std.specs.Prelude.{None};

    ghost left = { λ _. None };

    ghost answered = { λ _. None };

    ghost given = { λ _. None };

    ghost failings = { λ _. None };

    ghost faults = { λ _. 0 };

    fn take(&mut self, _into: &mut [u8]) -> Take {
        if self.at == Call::Take {
            Take::NoMemory
        } else {
            Take::Ended
        }
    }

    fn give(&mut self, bytes: &[u8]) -> Give {
        if self.at == Call::Give {
            Give::NoMemory
        } else {
            Give::Gave(bytes.len())
        }
    }
}

impl Rings for StarvedLink {}

/// A door that finds no memory at its first accept, or else gives out one link that finds none. Then it is closed.
#[derive(Clone, Copy, Debug)]
pub(crate) struct StarvedDoor {
    at: Call,
    asked: bool,
}

impl StarvedDoor {
    /// A door at which memory is wanted in this call.
    pub(crate) fn new(at: Call) -> StarvedDoor {
        StarvedDoor { at, asked: false }
    }
}

impl Door for StarvedDoor {
    ghost use Rattle.std.specs.Prelude.{None};

    type Link = StarvedLink;

    ghost answered = { λ _. None };

    ghost gave = { λ _. None };

    ghost back = { λ _. None };

    ghost starved = { λ _. None };

    ghost faults = { λ _. 0 };

    fn accept(&mut self) -> Accept<StarvedLink> {
        if self.asked {
            return Accept::Closed;
        }
        self.asked = true;
        if self.at == Call::Accept {
            Accept::NoMemory
        } else {
            Accept::Got(StarvedLink { at: self.at })
        }
    }

    fn done(&mut self, link: StarvedLink) {
        let _link = link;
    }
}
