//! Laws of the definitions: what is read of times and numbers, and what is written of times.

ghost use Rattle.js_json.specs.Laws.{LawTime, LawTimeText, LawRoundTrip, LawInteger, LawNumeral};

/// A text is read as a moment exactly if it is the moment's text by the grammar.
pub fn law_time()
    ensures time { LawTime }
{}

/// What is written of a moment is its text, and is read as that moment.
pub fn law_time_text()
    ensures text { LawTimeText }
    ensures round_trip { LawRoundTrip }
{}

/// Each integer of 64 bits, with a sign or without, is read from its decimal digits. A number that is read as an integer is written in digits
/// alone, which after a minus are not 0.
pub fn law_numbers()
    ensures integer { LawInteger }
    ensures numeral { LawNumeral }
{}
