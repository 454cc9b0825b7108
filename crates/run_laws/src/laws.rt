//! The laws of the machine, of a run from the opening of its desk on.

ghost use Rattle.run_laws.specs.Laws.{LawRunAcked, LawRunConfirmed};

use talk_laws::{law_talk_acked, law_talk_confirmed};

/// No message is sent again to a consumer whose acknowledgement of it was confirmed, of all that a run makes from the opening of its desk to the end of
/// the session that it serves: an acknowledgement by which the message is done, or is never to come again. Nor is one whose delivery, which waited or was
/// given up, an acknowledgement ended by its kind and the ack policy, confirmed or not. The consumer may get the message again once it, or its stream, was
/// dropped and made anew. It is said of each place that was sound as it was opened.
pub fn law_run_acked()
    ensures law { LawRunAcked }
    ensures confirmed { LawRunConfirmed }
{
    law_talk_acked();
    law_talk_confirmed();
}
