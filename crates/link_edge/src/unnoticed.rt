//! A notice that does nothing.

ghost use Rattle.std.specs.Prelude.{None};

use crate::notice::{Found, Notice};

/// A notice for whoever does not care what was found: it does nothing.
#[derive(Clone, Copy, Debug)]
pub struct Unnoticed;

impl Notice for Unnoticed {
    ghost told = { λ _. None };

    fn opened(&mut self, _found: Found) {}
}
