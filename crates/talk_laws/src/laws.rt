//! The laws of the machine, of what a talk makes at one place of a desk of one caller, by the definitions alone.
//!
//! The calls of a talk make entries, which lead the desk from one state to another. Each law is of such entries and of a place that was sound at
//! first, as every place is when the desk opens. However the steps and deliveries that they made there are cut in three, there are states
//! between which the middle part stands; and the law holds of each such part.

ghost use Rattle.talk_laws.specs.Confirming.{LawTalkConfirmed};
ghost use Rattle.talk_laws.specs.Replying.{LawReplyRead};
ghost use Rattle.talk_laws.specs.TalkLaws.{LawOpening, LawTalkSound, LawTalkBounded, LawTalkWritable, LawTalkTick, LawTalkAcked, LawTalkEnds, LawTalkStays, LawTalkDuplicate, LawTalkKept, LawTalkOrder, LawTalkStart, LawTalkMade, LawTalkRedelivery, LawTalkLimits};

use js_api::laws::law_runs;

/// A desk over vacant places opens with places that are sound, within the bounds of a volume and without a message that can't
/// be written to a block file, and against whose stores no message counts.
pub fn law_opening()
    ensures law { LawOpening }
{}

/// Each state in which the place stands is sound.
pub fn law_talk_sound()
    ensures law { LawTalkSound }
{
    law_runs();
    model_laws::law_sound();
}

/// If the first state is within the bounds of a volume, then each state in which the place stands is: as many messages, ids,
/// consumers, picks and entries as this server allows, ids of their greatest length, and numbers below 2^62.
pub fn law_talk_bounded()
    ensures law { LawTalkBounded }
{
    law_runs();
    model_laws::law_sound();
    model_laws::law_bounded();
}

/// If the messages of the first state can be written to a block file, by their subjects, header blocks and lengths, then so
/// can those of each state in which the place stands.
pub fn law_talk_writable()
    ensures law { LawTalkWritable }
{
    law_runs();
    model_laws::law_writable();
}

/// A tick right after another one at the same moment changes nothing and sends nothing, if that one sent nothing.
pub fn law_talk_tick()
    ensures law { LawTalkTick }
{
    law_runs();
    model_laws::law_sound();
    model_laws::law_tick();
}

/// A sequence whose entry an acknowledgement ended is not sent again to its consumer, until it or the stream is dropped. An
/// acknowledgement of a delivery ends each entry that stands and that its kind and the ack policy name. Another entry
/// stays as long as its message is stored.
pub fn law_talk_acked()
    ensures law { LawTalkAcked }
    ensures ends { LawTalkEnds }
    ensures stays { LawTalkStays }
{
    law_runs();
    model_laws::law_sound();
    model_laws::law_acked();
}

/// A sequence whose acknowledgement was confirmed is not sent again to its consumer, until it or the stream is dropped: an acknowledgement by which the
/// message is done, or is never to come again. It may have ended before, by an acknowledgement that had no reply subject.
pub fn law_talk_confirmed()
    ensures law { LawTalkConfirmed }
{
    law_runs();
}

/// After a publish was stored with an id, another publish of that id is told the first sequence, as long as the window
/// has not passed, the configuration stays and the stream is not dropped. It may be refused first for its size, its
/// headers or the expected stream.
pub fn law_talk_duplicate()
    ensures law { LawTalkDuplicate }
{
    law_runs();
    model_laws::law_sound();
    model_laws::law_duplicate();
}

/// A stored message leaves by an event or a delivery only if it was too old by then, the event purged it, deleted it or
/// dropped the stream, a limit dropped it from what the event left, or the retention did not ask for it. What a purge
/// takes matches its filter, stands below its bound and has as many as are to be kept after it; what a limit drops has
/// enough messages or bytes after it.
pub fn law_talk_kept()
    ensures law { LawTalkKept }
{
    law_runs();
    model_laws::law_kept();
}

/// From any state on in which a consumer stands, what is sent to it has consumer sequences one after the other and counts
/// of 1 or more. Each output brings the subject, the header block and the payload of a message that was stored before
/// under that sequence and that the consumer's filter matches. First deliveries are its picks in order, and then ascending
/// sequences from its cursor on. A consumer that is made begins at the picks and the cursor of its deliver policy, with
/// consumer sequence 1; and one that stands after the part and not before it was made by an entry of the part, at which
/// the part is split.
pub fn law_talk_order()
    ensures law { LawTalkOrder }
    ensures start { LawTalkStart }
    ensures made { LawTalkMade }
{
    law_runs();
    model_laws::law_sound();
    model_laws::law_order();
}

/// A sequence is sent again once more than before, and not before the moment that its last delivery, a NAK or a WPI set.
pub fn law_talk_redelivery()
    ensures law { LawTalkRedelivery }
{
    law_runs();
    model_laws::law_sound();
    model_laws::law_redelivery();
}

/// A state within its limits stays so, and a message is sent at most `max_deliver` times. Each message to a pull consumer
/// goes to the first pull that was taken and has not ended, within what is left of its batch and its bytes.
pub fn law_talk_limits()
    ensures law { LawTalkLimits }
{
    law_runs();
    model_laws::law_sound();
    model_laws::law_limits();
}

/// The reply subject of a delivery is read as an acknowledgement of its message, to its consumer and its stream.
pub fn law_reply_read()
    ensures law { LawReplyRead }
{
    js_base::laws::law_decimal();
    ack_parse::law_spelled();
}
