//! Laws of the definitions.

ghost use Rattle.log_records.specs.Laws.{LawBatches, LawBegins, LawUnread};

/// The batches of a log give one thing, or one of them is the first that is wrong, at one place, and not both.
pub fn law_batches()
    ensures { LawBatches }
{}

/// Records make of messages that are not read what they make of messages, but for their subjects, headers and payloads; and what is asked at the end of a
/// batch looks at none of these.
pub fn law_unread()
    ensures { LawUnread }
{}

/// Records make of what a log has made what a log can make, and so it is at the end of a batch; and a snapshot of it begins another log.
pub fn law_begins()
    ensures { LawBegins }
{}
