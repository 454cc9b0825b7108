//! What is sought among the patterns.

ghost use Rattle.std.specs.Prelude.{◌≡◌, ◌==◌, ◌&&◌, length};
ghost use Rattle.js_base.specs.Bytes.{same};
ghost use Rattle.js_base.specs.Subjects.{star, rest};
ghost use Rattle.route_index.specs.Searching.{seeks_overlaps};

/// Which patterns are sought.
#[derive(Clone, Copy)]
pub(crate) enum Seek {
    /// Those that match a subject.
    Matching,
    /// Those that overlap with a pattern.
    Overlapping,
}

impl Seek {
    /// Whether overlaps are sought.
    fn seeks_overlaps(self) -> bool
        ensures value { result ≡ seeks_overlaps self }
    {
        match self {
            Seek::Matching => false,
            Seek::Overlapping => true,
        }
    }

    /// Whether a token stands for all that may be left: a last `>` of the pattern whose overlaps are sought.
    pub(crate) fn takes_all(self, token: &[u8], others: &[&[u8]]) -> bool
        ensures value { result ≡ (seeks_overlaps self && (same token.now rest && length others.now == 0)) }
    {
        self.seeks_overlaps() && token == b">".as_slice() && others.is_empty()
    }

    /// Whether a token stands for each token: a `*` of the pattern whose overlaps are sought.
    pub(crate) fn takes_each(self, token: &[u8]) -> bool
        ensures value { result ≡ (seeks_overlaps self && same token.now star) }
    {
        self.seeks_overlaps() && token == b"*".as_slice()
    }
}
