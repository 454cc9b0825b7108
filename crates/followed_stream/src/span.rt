//! Ranges of sequences.

ghost use Rattle.std.specs.Prelude.{◌≡◌, ℕ, ◌==◌, false};
ghost use Rattle.followed_stream.specs.Handing.{is_of};
ghost use Rattle.followed_stream.specs.Spans.{spans, joined};

use js_model::Delivered;

/// The sequences from the first to the last. There is none if the first is above the last.
#[derive(Clone, Copy)]
pub struct Span {
    pub first: u64,
    pub last: u64,
}

impl Span {
    /// No sequence.
    pub fn none() -> Span
        ensures none { (seq : ℕ) → spans result seq ≡ false }
    {
        Span {
            first: u64::MAX,
            last: 0,
        }
    }

    /// All sequences up to the last one.
    pub fn up_to(last: u64) -> Span
        ensures value { result ≡ record { first = 0; last = last } }
    {
        Span { first: 0, last }
    }

    /// One sequence.
    pub fn one(seq: u64) -> Span
        ensures value { result ≡ record { first = seq; last = seq } }
    {
        Span {
            first: seq,
            last: seq,
        }
    }

    /// That of the message that is sent, if the delivery is of one.
    pub fn of(what: Delivered) -> Span
        ensures outside { (seq : ℕ) → spans result seq ≡ false → is_of what seq ≡ false }
    {
        match what {
            Delivered::Sent { seq, .. } => Span::one(seq),
            Delivered::TooSmall | Delivered::Emptied => Span::none(),
        }
    }

    /// The sequences of both, and those between them.
    pub fn join(self, other: Span) -> Span
        ensures value { result ≡ joined self other }
    {
        Span {
            first: self.first.min(other.first),
            last: self.last.max(other.last),
        }
    }
}
