//! A pattern as a key of an ordered map.

ghost use Rattle.std.specs.Prelude.{◌≡◌, ◌<◌, ◌^◌, [], ◌++◌, IfOk, OnOk, length, take, nat_eq};
ghost use Rattle.std.proofs.Common.{rules, refl};
ghost use Rattle.std.specs.Cmp.{partial_order_from_own_ties};
ghost use Rattle.std.specs.Cmp.Lexicographic.{pointwise, slice_cmp};
ghost use Rattle.std.specs.Cmp.Rules.{comparing};
ghost use Rattle.std.specs.Ordering.{as_partial_cmp, nat_cmp};

use js_base::NoMemory;
use std::alloc::Global;
use std::cmp::Ordering;
use std::marker::Model;

/// The text of a pattern, or a prefix of it. Texts are in order byte by byte, so those with one prefix stand side by side.
#[derive(Drop, Debug)]
pub(crate) struct Pattern {
    text: Vec<u8>,
}

impl Model for Pattern {
    ghost use Rattle.std.specs.Prelude.{ℕ, List};

    ghost Value = { List ℕ };

    ghost view = { λ pattern. pattern.text.items };
}

impl Pattern {
    /// The text before the first token. It takes no memory.
    pub(crate) fn new(alloc: Global) -> Pattern
        ensures empty { result ≡ [] }
    {
        Pattern {
            text: Vec::new(alloc),
        }
    }

    /// A copy of the text.
    pub(crate) fn of(alloc: Global, text: &[u8]) -> Result<Pattern, NoMemory>
        ensures value { IfOk result (λ pattern. pattern ≡ text.now) }
    {
        let mut pattern = Pattern::new(alloc);
        pattern.put(text)?;
        Ok(pattern)
    }

    /// The bytes.
    pub(crate) fn as_slice(&self) -> &[u8]
        ensures value { result.now ≡ self.now }
    {
        self.text.as_slice()
    }

    /// How many bytes there are.
    pub(crate) fn len(&self) -> usize
        ensures value { result ≡ length self.now }
    {
        self.text.len()
    }

    /// Adds bytes at the end.
    pub(crate) fn put(&mut self, bytes: &[u8]) -> Result<(), NoMemory>
        ensures ok { OnOk result (self.new ≡ self.old ++ bytes.now) }
    {
        self.text.extend_from_slice(bytes)?;
        Ok(())
    }

    /// Drops all but the first `len` bytes.
    pub(crate) fn cut(&mut self, len: usize)
        ensures left { self.new ≡ take len self.old }
    {
        self.text.truncate(len);
    }
}

impl PartialEq for Pattern {
    ghost eq = { pointwise nat_eq };

    ghost laws = { Prim.search (comparing, rules) };

    fn eq(&self, other: &Pattern) -> bool {
        self.text == other.text
    }
}

impl Eq for Pattern {
    ghost laws = { Prim.search (comparing, rules) };
}

impl PartialOrd for Pattern {
    ghost partial_cmp = { as_partial_cmp (slice_cmp nat_cmp) };

    ghost laws = { partial_order_from_own_ties (Prim.search (comparing, rules)) (Prim.search (comparing, rules)) };

    fn partial_cmp(&self, other: &Pattern) -> Option<Ordering> {
        Some(self.cmp(other))
    }
}

impl Ord for Pattern {
    ghost cmp = { slice_cmp nat_cmp };

    ghost total = { Prim.search (comparing, rules) };

    ghost matches_partial_cmp = { λ x y. refl };

    ghost matches_eq = { Prim.search (comparing, rules) };

    fn cmp(&self, other: &Pattern) -> Ordering {
        self.text.cmp(&other.text)
    }
}
