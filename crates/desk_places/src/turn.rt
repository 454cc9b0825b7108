//! Whether a caller is in a turn of the catalog.

ghost use Rattle.std.specs.Prelude.{◌≡◌};
ghost use Rattle.desk_places.specs.Turns.{after_change, after_hold};

use js_model::CatalogFault;

/// Whether a caller is in a turn of the catalog, and what of it is still to be told there.
#[derive(Clone, Copy, Debug, PartialEq, Eq)]
pub enum Turn {
    /// In none.
    Outside,
    Within,
    /// The stream of this place has its new subjects beside its old ones.
    Between(u32),
    /// The stream of this place was dropped.
    Owing(u32),
}

impl Turn {
    /// The turn after the subjects of the stream of a place were changed, or were not.
    pub fn after_change(self, changed: &Result<(), CatalogFault>, place: u32) -> Turn
        ensures value { result ≡ after_change self changed.now place }
    {
        match changed {
            Ok(()) => Turn::Between(place),
            Err(_) => self,
        }
    }

    /// The turn after a hold at a place, by which its stream was dropped or not.
    pub fn after_hold(self, dropped: bool, place: u32) -> Turn
        ensures value { result ≡ after_hold self dropped place }
    {
        if dropped { Turn::Owing(place) } else { self }
    }
}
