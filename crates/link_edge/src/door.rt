//! Where connections come from, and go back to.

ghost use Rattle.std.specs.Prelude.{◌≡◌, ◌≤◌, ◌∷◌, [], ℕ, List, Option};
ghost use Rattle.link_edge.specs.declared.answers.Accepted.{Accepted};
ghost use Rattle.link_edge.specs.Told.{grown};
ghost use Rattle.link_edge.specs.Accepts.{IfGot, accepted_of, gave_after};
ghost use Rattle.link_edge.specs.Failings.{after_accept};
ghost use Rattle.link_edge.specs.declared.failings.Starved.{Starved};
ghost use Rattle.link_edge.specs.Reports.{Report, HasOut, IsFresh};
ghost use Rattle.js_base.specs.Causes.{HasCause};

use crate::answers::Accept;
use crate::link::Link;

/// A door gives connections out, and takes each back at its session's end.
pub trait Door {
    type Link: Link;

    /// What its accepts answered so far, if it is known.
    ghost answered: { Self → Option (List Accepted) };

    /// How many links it gave out so far, if it is known.
    ghost gave: { Self → Option ℕ };

    /// What is known of each link that came back so far, if it is known.
    ghost back: { Self → Option (List Report) };

    /// How often an accept found no memory, and how many accepts came after the first of these so far, if it is known.
    ghost starved: { Self → Option Starved };

    /// How often it failed so far.
    ghost faults: { Self → ℕ };

    /// Accepts the next connection. A link that is given out is fresh.
    fn accept(&mut self) -> Accept<Self::Link>
        ensures fresh { IfGot result
            (λ link. IsFresh (Self.Link.answered link) (Self.Link.given link) (Self.Link.failings link) (Self.Link.faults link)) }
        ensures answered { answered self.new ≡ grown (answered self.old) (accepted_of result) }
        ensures gave { gave self.new ≡ gave_after (gave self.old) result }
        ensures back { back self.new ≡ back self.old }
        ensures starved { starved self.new ≡ after_accept result (starved self.old) }
        ensures cause { HasCause (faults self.old) (faults self.new) (result ≡ Accept.Failed) };

    /// Takes a link back. It never fails, and takes no memory. What is known of the link is told if, as far as is known, one was out.
    fn done(&mut self, link: Self::Link)
        ensures answered { answered self.new ≡ answered self.old }
        ensures gave { gave self.new ≡ gave self.old }
        ensures back { HasOut (gave self.old) (back self.old) → back self.new ≡ grown (back self.old) (record {
          answered = Self.Link.answered link;
          given = Self.Link.given link;
          failings = Self.Link.failings link;
          faults = Self.Link.faults link;
        } ∷ []) }
        ensures starved { starved self.new ≡ starved self.old }
        ensures later { faults self.old ≤ faults self.new };
}
