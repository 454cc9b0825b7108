//! A stored message as it is shown.

ghost use Rattle.std.specs.Prelude.{◌≡◌, IfOk, OnOk, IsUtf8};
ghost use Rattle.serde_json.specs.Data.{object, put as with_member};
ghost use Rattle.js_json.specs.Building.{shown};
ghost use Rattle.api_replies.specs.Messages.{base64_data, base64_unless_empty, message_data, stored_members};

use base64::engine::general_purpose::STANDARD;
use js_base::NoMemory;
use js_json::ObjectBuilder;
use js_model::Message;
use serde_json::Value;
use std::alloc::Global;

/// Adds bytes, spelled in base64.
fn put_bytes(
    alloc: Global,
    into: &mut ObjectBuilder,
    key: &str,
    bytes: &[u8],
) -> Result<(), NoMemory>
    ensures ok { OnOk result (shown into.new ≡ with_member key.now (base64_data bytes.now) (shown into.old)) }
{
    let text = STANDARD.encode(alloc, bytes)?;
    into.value(key, Value::String(text))
}

/// Adds bytes that are not empty, spelled in base64.
fn put_bytes_unless_empty(
    alloc: Global,
    into: &mut ObjectBuilder,
    key: &str,
    bytes: &[u8],
) -> Result<(), NoMemory>
    ensures ok { OnOk result (shown into.new ≡ base64_unless_empty key.now bytes.now (shown into.old)) }
{
    if bytes.is_empty() {
        Ok(())
    } else {
        put_bytes(alloc, into, key, bytes)
    }
}

/// The message as it is shown: its payload and its header block in base64.
#[tactic(auto, unfolding(crate::specs::Messages::message_data))]
fn message_object(alloc: Global, message: &Message) -> Result<ObjectBuilder, NoMemory>
    requires utf8 { IsUtf8 message.now.subject }
    ensures value { IfOk result (λ made. object (shown made) ≡ message_data message.now) }
{
    let mut made = ObjectBuilder::new(alloc);
    put_bytes_unless_empty(alloc, &mut made, "hdrs", message.headers.as_slice())?;
    put_bytes(alloc, &mut made, "data", message.payload.as_slice())?;
    made.number("seq", message.seq)?;
    made.text("subject", message.subject.as_slice())?;
    made.time("time", message.at)?;
    Ok(made)
}

/// A reply that shows the message.
#[tactic(auto, unfolding(crate::specs::Messages::stored_members))]
pub(crate) fn stored_object(alloc: Global, message: &Message) -> Result<ObjectBuilder, NoMemory>
    requires utf8 { IsUtf8 message.now.subject }
    ensures members { IfOk result (λ made. shown made ≡ stored_members message.now) }
{
    let message = message_object(alloc, message)?;
    let mut made = ObjectBuilder::new(alloc);
    made.part("message", message)?;
    Ok(made)
}
