//! Types whose value clauses alone see. No value of them is made.

ghost use Rattle.std.specs.Prelude.{List};
ghost use Rattle.histories.specs.Entries.{Entry, Opening};
ghost use base.Fml.{ftrue};

use std::marker::Model;

/// A history, as a list of entries.
pub struct Past {
    pub ghost entries: { List Entry },
}

impl Model for Past {
    ghost Value = { List Entry };

    ghost view = { λ p. p.entries };

    ghost also_owns = { λ _. ftrue };
}

/// The state in which a history opens.
pub struct Start {
    pub ghost opening: { Opening },
}

impl Model for Start {
    ghost Value = { Opening };

    ghost view = { λ s. s.opening };

    ghost also_owns = { λ _. ftrue };
}
