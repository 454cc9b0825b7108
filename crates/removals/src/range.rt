//! Ranges of sequences.

use std::marker::Model;

/// The sequences from the low one to the high one, both of them too.
#[derive(Clone, Copy, Debug)]
pub struct Range {
    pub low: u64,
    pub high: u64,
}

impl Model for Range {
    ghost use Rattle.effects.specs.Ranges.{Range as Sequences};

    ghost Value = { Sequences };

    ghost view = { λ range. record { low = range.low; high = range.high } };

    ghost inverse = { λ range. record { low = range.low; high = range.high } };
}
