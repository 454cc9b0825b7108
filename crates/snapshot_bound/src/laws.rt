//! The laws of what a snapshot may come to.

ghost use Rattle.js_model.specs.declared.stream.State.{State};
ghost use Rattle.snapshot_bound.specs.Laws.{LawAsked, LawCovers, LawGrowth, LawParts};

/// The first batch of a next log is no longer than the bound of what it tells, and no record raises that bound but one that asks for room, by no more than its
/// growth.
pub fn law_bounds()
    ensures covers { LawCovers }
    ensures growth { LawGrowth }
    ensures asked { LawAsked }
    ensures parts { (state : State) → LawParts state }
{}
