//! A push consumer, as one sees it who asks whether somebody listens for it.

use js_base::Blob;
use std::marker::Model;

/// A push consumer of a stream.
#[derive(Drop)]
pub struct Push<'a> {
    pub name: &'a Blob,
    /// Where its messages go, without wildcards.
    pub subject: &'a Blob,
    /// The queue group whose members take turns at them, if it has one.
    pub group: Option<&'a Blob>,
}

impl<'a> Model for Push<'a> {
    ghost use Rattle.std.specs.Option.{option_copied};
    ghost use Rattle.place_engine.specs.Pushes.{Pushing};

    ghost Value = { Pushing };

    ghost view = { λ push. record { name = push.name.now; subject = push.subject.now; group = option_copied push.group } };
}
