//! Configurations as they are printed.

ghost use Rattle.std.specs.Prelude.{◌≡◌, IfOk, IsUtf8};
ghost use Rattle.serde_json.specs.Data.{object};
ghost use Rattle.serde_json.specs.View.{view};
ghost use Rattle.stream_config.specs.Printing.{retention_text, discard_text, printed, IsPrinted};

use js_base::NoMemory;
use js_json::ObjectBuilder;
use js_model::{Discard, Retention, StreamConfig};
use serde_json::Value;
use std::alloc::Global;

/// The name of a retention policy.
fn retention_text(retention: Retention) -> &'static [u8]
    ensures value { result.now ≡ retention_text retention }
    ensures utf8 { IsUtf8 result.now }
{
    match retention {
        Retention::Limits => b"limits",
        Retention::Interest => b"interest",
        Retention::WorkQueue => b"workqueue",
    }
}

/// The name of a discard policy.
fn discard_text(discard: Discard) -> &'static [u8]
    ensures value { result.now ≡ discard_text discard }
    ensures utf8 { IsUtf8 result.now }
{
    match discard {
        Discard::Old => b"old",
        Discard::New => b"new",
    }
}

/// The configuration's object, with its keys in ascending order. No limit is -1, but 0 for `max_age`, and `description` is there if it is not
/// empty.
pub fn print(alloc: Global, config: &StreamConfig) -> Result<Value, NoMemory>
    requires utf8 { IsPrinted config.now }
    ensures printed { IfOk result (λ value. view value ≡ object (printed config.now)) }
{
    let mut made = ObjectBuilder::new(alloc);
    made.text_unless_empty("description", config.description.as_slice())?;
    made.text("discard", discard_text(config.discard))?;
    made.number("duplicate_window", config.duplicate_window)?;
    made.number("max_age", config.max_age)?;
    made.limit("max_bytes", config.max_bytes)?;
    made.limit("max_consumers", config.max_consumers)?;
    made.limit("max_msg_size", config.max_msg_size)?;
    made.limit("max_msgs", config.max_msgs)?;
    made.limit("max_msgs_per_subject", config.max_msgs_per_subject)?;
    made.text("name", config.name.as_slice())?;
    made.number("num_replicas", 1)?;
    made.text("retention", retention_text(config.retention))?;
    made.text("storage", b"file")?;
    made.texts("subjects", config.subjects.as_slice())?;
    Ok(made.into_value())
}
