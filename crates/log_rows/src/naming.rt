//! The names of records.

use effects::Effect;
use op_records::Record;

/// The name of the record's kind.
pub(crate) fn kind_name(record: &Record) -> &'static str {
    match record {
        Record::Put { .. } => "Put",
        Record::Change(effect) => change_name(effect),
    }
}

/// The name of the change.
fn change_name(effect: &Effect) -> &'static str {
    match effect {
        Effect::MakeStream { .. } => "MakeStream",
        Effect::ChangeStream { .. } => "ChangeStream",
        Effect::DropStream => "DropStream",
        Effect::PutHere { .. } => "PutHere",
        Effect::Skip { .. } => "Skip",
        Effect::Remove { .. } => "Remove",
        Effect::MakeConsumer { .. } => "MakeConsumer",
        Effect::DropConsumer { .. } => "DropConsumer",
        Effect::Deliver { .. } => "Deliver",
        Effect::Acked { .. } => "Acked",
        Effect::Due { .. } => "Due",
        Effect::GivenUp { .. } => "GivenUp",
        Effect::Now { .. } => "Now",
    }
}
