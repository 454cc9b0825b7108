//! The laws of acknowledgements and of pull requests.

ghost use Rattle.ack_parse.specs.Laws.{LawSubject, LawBody, LawAsk};

/// A subject and a body are read as an acknowledgement, and a body as a pull request, exactly if they spell it by the grammar.
pub fn law_spelled()
    ensures subject { LawSubject }
    ensures body { LawBody }
    ensures ask { LawAsk }
{}
