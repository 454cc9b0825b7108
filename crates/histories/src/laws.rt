//! What holds of fronts and of own entries, by the definitions alone.

ghost use Rattle.histories.specs.Laws.{LawSame, LawBoth, LawOwn, LawAdded};

/// A front that stays has grown, and one that has grown twice has grown.
pub fn law_grows()
    ensures same { LawSame }
    ensures both { LawBoth }
{}

/// A seat's own entries are the same in a front that grew, and what it leaves itself stands behind them.
pub fn law_own()
    ensures own { LawOwn }
    ensures added { LawAdded }
{}
