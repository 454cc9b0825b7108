//! What a seat knows.

ghost use Rattle.turn_lock.specs.Views.{View};
ghost use base.Fml.{ftrue};

use std::marker::Model;

/// What a seat knows. No value of it is made.
pub struct Sight {
    pub ghost view: { View },
}

impl Model for Sight {
    ghost Value = { View };

    ghost view = { λ s. s.view };

    ghost also_owns = { λ _. ftrue };
}
