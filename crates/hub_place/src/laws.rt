//! What holds of a place of a hub whenever its turn is left, by the definitions alone.

ghost use Rattle.hub_place.specs.Laws.{LawValue};

use crash_laws::law_opened;
use place_engine::Place;

/// Each image that a crash between two turns may leave of the volume holds what outlives a crash of the state behind a beginning of the history, with all
/// that are confirmed.
pub fn law_value<P: Place>()
    ensures law { LawValue P.holds P.left P.clock P.base P.keeps_vol }
{
    law_opened::<P>();
}
