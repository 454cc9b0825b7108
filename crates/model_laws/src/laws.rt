//! What holds of each run of a place, by the definitions of the machine alone.

ghost use Rattle.model_laws.specs.Laws.{LawSound, LawSoundLasting, LawStoredTest, LawMatchedTest, LawBounded, LawBoundedLasting, LawBoundedTest, LawWritable, LawWritableLasting, LawWritableTest, LawChangesTest, LawTick, LawAcked, LawEnds, LawStays, LawEntries, LawDuplicate, LawKept, LawTaken, LawOrder, LawStart, LawMade, LawRedelivery, LawLimits, LawReady};

/// Soundness is kept: each state that a run reaches from a sound one is sound, and so is what of it outlives a crash. Its two
/// parts, of what is stored and of what filters match, are decided by the tests that compute them.
pub fn law_sound()
    ensures law { LawSound }
    ensures lasting { LawSoundLasting }
    ensures stored_test { LawStoredTest }
    ensures matched_test { LawMatchedTest }
{}

/// A sound state within the bounds of a volume stays within them: as many messages, ids, consumers, picks and entries as this
/// server allows, ids of their greatest length, and numbers below 2^62. Of each message they ask the sequence and the moment
/// alone. What outlives a crash is within them too. Whether a state is within them is decided by the test that computes it.
pub fn law_bounded()
    ensures law { LawBounded }
    ensures lasting { LawBoundedLasting }
    ensures test { LawBoundedTest }
{}

/// A state whose messages can be written to a block file stays so: each has a subject without wildcards, no header block or
/// a whole one, and at most as many bytes of header block and payload as this server allows. What outlives a crash is
/// so too. Whether a state is so is decided by the test that computes it.
pub fn law_writable()
    ensures law { LawWritable }
    ensures lasting { LawWritableLasting }
    ensures test { LawWritableTest }
{}

/// Whether a step changed more than the moment of what outlives a crash is decided by the test that computes it.
pub fn law_changes()
    ensures law { LawChangesTest }
{}

/// A tick right after another one at the same moment changes nothing and sends nothing, if that one sent nothing. (At the
/// last moment that there is, heartbeats come with each event.)
pub fn law_tick()
    ensures law { LawTick }
{}

/// A sequence whose entry an acknowledgement ended is not sent again to its consumer, until it or the stream is dropped. An
/// acknowledgement of a delivery ends each entry that stands and that its kind and the ack policy name. Another entry
/// stays as long as its message is stored, and but for the entries an acknowledgement itself changes nothing of its
/// consumer.
pub fn law_acked()
    ensures law { LawAcked }
    ensures ends { LawEnds }
    ensures stays { LawStays }
    ensures entries { LawEntries }
{}

/// After a publish was stored with an id, another publish of that id is told the first sequence, as long as the window
/// has not passed, the configuration stays and the stream is not dropped. It may be refused first for its size, its
/// headers or the expected stream.
pub fn law_duplicate()
    ensures law { LawDuplicate }
{}

/// A stored message leaves by an event or a delivery only if it was too old by then, the event purged it, deleted it or
/// dropped the stream, a limit dropped it from what the event left, or the retention did not ask for it. What a purge
/// takes matches its filter, stands below its bound and has as many as are to be kept after it; what a limit drops has
/// enough messages or bytes after it. The retention goes by the consumers as the event or the delivery left them, while
/// they still had the message.
pub fn law_kept()
    ensures law { LawKept }
{}

/// Under discard new, what a publish that was taken leaves is within the limits on messages and on bytes, once the limit of
/// each subject has dropped what it drops: those two drop nothing.
pub fn law_taken()
    ensures law { LawTaken }
{}

/// What is sent to a consumer has consumer sequences one after the other and counts of 1 or more. Each output brings the
/// subject, the header block and the payload of a message that was stored before under that sequence and that the
/// consumer's filter matches. First deliveries are its picks in order, and then ascending sequences from its cursor on. A
/// consumer that is made begins at the picks and the cursor of its deliver policy, with consumer sequence 1; and one that
/// stands after a run and not before it was made by an entry of the run, at which the run is split.
pub fn law_order()
    ensures law { LawOrder }
    ensures start { LawStart }
    ensures made { LawMade }
{}

/// A sequence is sent again once more than before, and not before the moment that its last delivery, a NAK or a WPI set.
pub fn law_redelivery()
    ensures law { LawRedelivery }
{}

/// A state within its limits stays so, and a message is sent at most `max_deliver` times. Each message to a pull consumer
/// goes to the first pull that was taken and has not ended, within what is left of its batch and its bytes.
pub fn law_limits()
    ensures law { LawLimits }
{}

/// A consumer is ready if and only if something can be delivered to it: a candidate is sent, or it ends the first pull,
/// which is too small for it, or there is no candidate and the first pull that does not wait ends.
pub fn law_ready()
    ensures law { LawReady }
{}
