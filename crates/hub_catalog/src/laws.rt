//! What holds of the catalogs of a hub, by the definitions alone.

ghost use Rattle.hub_catalog.specs.Laws.{LawOpening, LawPlaces};

/// No call adds a place or takes one away.
pub fn law_places()
    ensures law { LawPlaces }
{}

/// A catalog that begins with what the places kept may be shared.
pub fn law_opening()
    ensures law { LawOpening }
{}
