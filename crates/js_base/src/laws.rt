//! Laws of the definitions.

ghost use Rattle.js_base.specs.Decimal.{LawDecimal};
ghost use Rattle.js_base.specs.Subjects.{LawMeet};

/// Two patterns meet exactly if both match some subject without wildcards.
pub fn law_meet()
    ensures { LawMeet }
{}

/// What a number below 2^62 is printed as is read as that number.
pub fn law_decimal()
    ensures { LawDecimal }
{}
