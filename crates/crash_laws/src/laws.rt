//! What a crash may leave of all that was made at a place, by the definitions alone.

ghost use Rattle.crash_laws.specs.Laws.{LawMore, LawNothing, LawOpened, LawTimed};

use place_engine::Place;

/// The timed entries of a place are those of its run.
pub fn law_timed()
    ensures law { LawTimed }
{}

/// What a crash may leave of entries that follow others, it may leave of all of them: a beginning, with all that were confirmed by the moment of the
/// crash. Where nothing was made, it may leave what it could leave before.
pub fn law_outlasting<P: Place>()
    ensures nothing { LawNothing P.holds P.left P.clock P.base }
    ensures law { LawMore P.holds P.left P.clock P.base }
{}

/// Of a place that was opened, each image of a crash at any moment since then holds what outlives a crash of the state behind a beginning of what was made
/// there, with all that were confirmed by that moment.
pub fn law_opened<P: Place>()
    ensures law { LawOpened P.holds P.left P.clock P.base }
{}
