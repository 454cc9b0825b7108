//! Links to clients.

ghost use Rattle.std.specs.Prelude.{◌≡◌, ◌<◌, ℕ, List, Option, length};
ghost use Rattle.link_edge.specs.declared.answers.Answer.{Answer};
ghost use Rattle.link_edge.specs.Told.{grown, Loses};
ghost use Rattle.link_edge.specs.Takes.{IsTakeWithin, EndsAtEnd, taken_bytes, answers_of};
ghost use Rattle.link_edge.specs.Gives.{IsGiveWithin, given_bytes};
ghost use Rattle.link_edge.specs.Failings.{after_take, after_give};
ghost use Rattle.link_edge.specs.declared.failings.Failings.{Failings};
ghost use Rattle.js_base.specs.Causes.{HasCause};

use crate::answers::{Give, Take};

/// A client's connection, on which the NATS client protocol is spoken: bytes come in pieces, and bytes
/// go out.
pub trait Link {
    /// The bytes that are left to take, if they are known.
    ghost left: { Self → Option (List ℕ) };

    /// What its takes answered so far, if it is known.
    ghost answered: { Self → Option (List Answer) };

    /// The bytes that it was given so far, if they are known.
    ghost given: { Self → Option (List ℕ) };

    /// How often a give failed, how often a call found no memory, and how many calls came after the first of these so far, if it is known.
    ghost failings: { Self → Option Failings };

    /// How often it failed so far.
    ghost faults: { Self → ℕ };

    /// Takes the next piece of the input, as far as there is room. The room after it may hold anything.
    fn take(&mut self, into: &mut [u8]) -> Take
        requires room { 0 < length into.old }
        ensures within { IsTakeWithin result (length into.new) }
        ensures left { Loses (left self.old) (left self.new) (taken_bytes result into.new) }
        ensures end { EndsAtEnd result (left self.new) }
        ensures answered { answered self.new ≡ grown (answered self.old) (answers_of result into.new) }
        ensures given { given self.new ≡ given self.old }
        ensures failings { failings self.new ≡ after_take result (failings self.old) }
        ensures cause { HasCause (faults self.old) (faults self.new) (result ≡ Take.Failed) };

    /// Gives the bytes, or a prefix of them.
    fn give(&mut self, bytes: &[u8]) -> Give
        requires bytes { 0 < length bytes.now }
        ensures within { IsGiveWithin result (length bytes.now) }
        ensures left { left self.new ≡ left self.old }
        ensures answered { answered self.new ≡ answered self.old }
        ensures given { given self.new ≡ grown (given self.old) (given_bytes result bytes.now) }
        ensures failings { failings self.new ≡ after_give result (failings self.old) }
        ensures cause { HasCause (faults self.old) (faults self.new) (result ≡ Give.Failed) };
}
