//! Laws of the definitions: which subjects are calls.

ghost use Rattle.api_requests.specs.Laws.{LawGeneral, LawOnStream, LawOnConsumer};

/// A subject is read as a call exactly if it is that call's subject.
pub fn law_calls()
    ensures general { LawGeneral }
    ensures on_stream { LawOnStream }
    ensures on_consumer { LawOnConsumer }
{}
