//! Where lines are printed to.

ghost use Rattle.std.specs.Prelude.{◌≡◌, ℕ, List, Option};
ghost use Rattle.link_edge.specs.Puts.{Writes};
ghost use Rattle.js_base.specs.Causes.{HasCause};

use crate::answers::Put;

/// A sink takes pieces of text, one after another.
pub trait Sink {
    /// The bytes that were written so far, if they are known.
    ghost written: { Self → Option (List ℕ) };

    /// How often it failed so far.
    ghost faults: { Self → ℕ };

    /// Writes the piece. After `Failed` a prefix of it was written.
    fn put(&mut self, bytes: &[u8]) -> Put
        ensures written { Writes (written self.old) (written self.new) result bytes.now }
        ensures cause { HasCause (faults self.old) (faults self.new) (result ≡ Put.Failed) };
}
