//! The laws of crashes, of a run from the beginning of its opening on.

ghost use Rattle.run_laws.specs.Crashes.{LawRunOutlives, LawUnopenedHolds};

use crash_laws::{law_opened, law_outlasting};
use place_engine::Place;

/// Of each place whose volume held all of what the place was opened to as the run began: at whatever moment since then a crash comes, it leaves what outlives
/// a crash of the state behind a beginning of all that the run made there, with all that were confirmed by then. If no place failed in the closing, and this
/// one is not stopped, its volume comes back with all that outlives a crash of its last state, and nothing else.
pub fn law_run_outlives<P: Place>()
    ensures law { LawRunOutlives P.seen P.vol P.holds P.reads P.left P.clock P.faults P.room_causes P.base P.opens P.refuses P.keeps_vol }
{
    law_outlasting::<P>();
    law_opened::<P>();
}

/// Of a run that ended before its places were opened, with status 4 or 5 or for want of memory: what each of its volumes held as the run began, each image of a
/// crash since then still holds, so that it opens to what it would have opened to.
pub fn law_unopened_holds<P: Place>()
    ensures law { LawUnopenedHolds P.seen P.vol P.holds P.reads P.left P.clock P.faults P.room_causes P.base P.opens P.refuses P.keeps_vol }
{}
