//! What tells the time.

ghost use Rattle.std.specs.Prelude.{◌≡◌, ℕ, List, Option, IfOk};
ghost use Rattle.link_edge.specs.Moments.{ReadsMoment};

use js_base::{Moment, NoMemory};

/// A clock never fails. It may stand still, and it may go back.
pub trait Clock {
    /// The moments to come, of which the last stays, if they are known.
    ghost to_come: { Self → Option (List ℕ) };

    /// The present moment: the first of the moments to come, if they are known. It takes no memory.
    fn now(&mut self) -> Moment
        ensures reads { ReadsMoment (to_come self.old) result (to_come self.new) };

    /// A clock for another thread, with the same moments to come.
    fn twin(&self) -> Result<Self, NoMemory>
        ensures twin { IfOk result (λ twin. to_come twin ≡ to_come self.now) };
}
