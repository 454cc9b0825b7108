//! The refusals of requests, of a stream and of the catalog.

ghost use Rattle.std.specs.Prelude.{◌≡◌, ◌++◌, IfOk, codes};
ghost use Rattle.js_model.specs.Refusals as refusals;

use js_base::{ApiError, Blob, NoMemory};
use std::alloc::Global;

fn refusal(alloc: Global, code: u16, err_code: u32, text: &[u8]) -> Result<ApiError, NoMemory>
    ensures value { IfOk result (λ error. error ≡ refusals.refusal code err_code text.now) }
{
    Ok(ApiError {
        code,
        err_code,
        text: Blob::of(alloc, text)?,
    })
}

/// A refusal whose text ends with the name of a field or of a header.
fn named_refusal(
    alloc: Global,
    err_code: u32,
    text: &[u8],
    name: &[u8],
) -> Result<ApiError, NoMemory>
    ensures value { IfOk result (λ error. error ≡ refusals.refusal 400 err_code (text.now ++ name.now)) }
{
    let mut whole = Vec::from_slice(alloc, text)?;
    whole.extend_from_slice(name)?;
    refusal(alloc, 400, err_code, whole.as_slice())
}

/// The body is no JSON object although one is needed.
pub fn invalid_json(alloc: Global) -> Result<ApiError, NoMemory>
    ensures value { IfOk result (λ error. error ≡ refusals.invalid_json) }
{
    refusal(alloc, 400, 10025, b"invalid JSON")
}

/// The field, or the name in the subject, has a wrong type or is out of its range.
pub fn invalid_value(alloc: Global, field: &[u8]) -> Result<ApiError, NoMemory>
    ensures value { IfOk result (λ error. error ≡ refusals.invalid_value field.now) }
{
    named_refusal(alloc, 20001, b"invalid value: ", field)
}

/// The field asks for what this server leaves out.
pub fn not_supported(alloc: Global, field: &[u8]) -> Result<ApiError, NoMemory>
    ensures value { IfOk result (λ error. error ≡ refusals.not_supported field.now) }
{
    named_refusal(alloc, 20002, b"not supported: ", field)
}

/// The name in the body is another one than that in the subject.
pub fn name_mismatch(alloc: Global) -> Result<ApiError, NoMemory>
    ensures value { IfOk result (λ error. error ≡ refusals.name_mismatch) }
{
    refusal(alloc, 400, 20022, b"name mismatch")
}

/// No message is stored under the sequence.
pub fn no_message(alloc: Global) -> Result<ApiError, NoMemory>
    ensures value { IfOk result (λ error. error ≡ refusals.no_message) }
{
    refusal(alloc, 404, 10037, b"no message found")
}

/// The last sequence is another one than the publish expects.
pub fn wrong_last(alloc: Global, actual: u64) -> Result<ApiError, NoMemory>
    ensures value { IfOk result (λ error. error ≡ refusals.wrong_last actual) }
{
    let text = format!(in alloc; "wrong last sequence: {actual}")?;
    refusal(alloc, 400, 10071, text.as_bytes())
}

/// The stream has another name than the publish expects.
pub fn wrong_stream(alloc: Global) -> Result<ApiError, NoMemory>
    ensures value { IfOk result (λ error. error ≡ refusals.wrong_stream) }
{
    refusal(alloc, 400, 10060, b"expected stream does not match")
}

/// The last id is another one than the publish expects.
pub fn wrong_last_id(alloc: Global) -> Result<ApiError, NoMemory>
    ensures value { IfOk result (λ error. error ≡ refusals.wrong_last_id) }
{
    refusal(alloc, 400, 10070, b"wrong last msg ID")
}

/// The duplicate window has no place for another id.
pub fn window_full(alloc: Global) -> Result<ApiError, NoMemory>
    ensures value { IfOk result (λ error. error ≡ refusals.window_full) }
{
    refusal(alloc, 503, 20013, b"duplicate window full")
}

/// The id of the message is too long.
pub fn id_too_long(alloc: Global) -> Result<ApiError, NoMemory>
    ensures value { IfOk result (λ error. error ≡ refusals.id_too_long) }
{
    refusal(alloc, 400, 20014, b"message id too long")
}

/// There is no room for a message, a consumer, a stream or another configuration: the disk is full, no file is free for a block, or the place would hold more
/// than a log can begin with.
pub fn no_room(alloc: Global) -> Result<ApiError, NoMemory>
    ensures value { IfOk result (λ error. error ≡ refusals.no_room) }
{
    refusal(alloc, 503, 20016, b"no room")
}

/// The message is larger than the stream takes.
pub fn message_too_large(alloc: Global) -> Result<ApiError, NoMemory>
    ensures value { IfOk result (λ error. error ≡ refusals.message_too_large) }
{
    refusal(alloc, 400, 20018, b"message too large")
}

/// The stream would have too many messages.
pub fn max_messages_exceeded(alloc: Global) -> Result<ApiError, NoMemory>
    ensures value { IfOk result (λ error. error ≡ refusals.max_messages_exceeded) }
{
    refusal(alloc, 503, 20019, b"maximum messages exceeded")
}

/// The stream would have too many bytes.
pub fn max_bytes_exceeded(alloc: Global) -> Result<ApiError, NoMemory>
    ensures value { IfOk result (λ error. error ≡ refusals.max_bytes_exceeded) }
{
    refusal(alloc, 503, 20020, b"maximum bytes exceeded")
}

/// A header is no decimal number.
pub fn bad_header_number(alloc: Global, header: &[u8]) -> Result<ApiError, NoMemory>
    ensures value { IfOk result (λ error. error ≡ refusals.bad_header_number header.now) }
{
    named_refusal(alloc, 20021, b"invalid header number: ", header)
}

/// No sequence below 2^62 is left.
pub fn numbers_used_up(alloc: Global) -> Result<ApiError, NoMemory>
    ensures value { IfOk result (λ error. error ≡ refusals.numbers_used_up) }
{
    refusal(alloc, 503, 20008, b"number range used up")
}

/// A rule of work queues is broken by a field of the consumer's configuration.
pub fn work_queue_rule(alloc: Global, field: &[u8]) -> Result<ApiError, NoMemory>
    ensures value { IfOk result (λ error. error ≡ refusals.work_queue_rule field.now) }
{
    named_refusal(alloc, 20004, b"work queue rule: ", field)
}

/// More sequences would be picked out for a new consumer than there may be.
pub fn too_many_subjects(alloc: Global) -> Result<ApiError, NoMemory>
    ensures value { IfOk result (λ error. error ≡ refusals.too_many_subjects) }
{
    refusal(alloc, 400, 20015, b"too many subjects")
}

/// The stream has as many consumers as it may have.
pub fn max_consumers_reached(alloc: Global) -> Result<ApiError, NoMemory>
    ensures value { IfOk result (λ error. error ≡ refusals.max_consumers_reached) }
{
    refusal(alloc, 400, 20017, b"maximum consumers reached")
}

/// The place has no stream.
pub fn no_stream(alloc: Global) -> Result<ApiError, NoMemory>
    ensures value { IfOk result (λ error. error ≡ refusals.no_stream) }
{
    refusal(alloc, 404, 10059, b"stream not found")
}

/// The stream is there with another configuration.
pub fn other_config(alloc: Global) -> Result<ApiError, NoMemory>
    ensures value { IfOk result (λ error. error ≡ refusals.other_config) }
{
    let text = b"stream name already in use with a different configuration";
    refusal(alloc, 400, 10058, text)
}

/// The stream's retention stays as it is.
pub fn retention_cannot_change(alloc: Global) -> Result<ApiError, NoMemory>
    ensures value { IfOk result (λ error. error ≡ refusals.retention_cannot_change) }
{
    refusal(alloc, 400, 20010, b"retention cannot change")
}

/// The stream has no such consumer.
pub fn no_consumer(alloc: Global) -> Result<ApiError, NoMemory>
    ensures value { IfOk result (λ error. error ≡ refusals.no_consumer) }
{
    refusal(alloc, 404, 10014, b"consumer not found")
}

/// The consumer that is to be updated is not there.
pub fn consumer_absent(alloc: Global) -> Result<ApiError, NoMemory>
    ensures value { IfOk result (λ error. error ≡ refusals.consumer_absent) }
{
    refusal(alloc, 400, 10149, b"consumer does not exist")
}

/// The consumer is there with another configuration.
pub fn consumer_exists(alloc: Global) -> Result<ApiError, NoMemory>
    ensures value { IfOk result (λ error. error ≡ refusals.consumer_exists) }
{
    refusal(alloc, 400, 20009, b"consumer already exists")
}

/// A subject meets one of another stream.
pub fn subjects_overlap(alloc: Global) -> Result<ApiError, NoMemory>
    ensures value { IfOk result (λ error. error ≡ refusals.subjects_overlap) }
{
    refusal(alloc, 400, 20006, b"subjects overlap")
}

/// The store failed, and the stream is stopped.
pub fn store_fault(alloc: Global) -> Result<ApiError, NoMemory>
    ensures value { IfOk result (λ error. error ≡ refusals.store_fault) }
{
    refusal(alloc, 503, 20011, b"store fault")
}

/// The store failed before, and the stream is stopped.
pub fn stream_stopped(alloc: Global) -> Result<ApiError, NoMemory>
    ensures value { IfOk result (λ error. error ≡ refusals.stream_stopped) }
{
    refusal(alloc, 503, 20012, b"stream stopped")
}

/// Every place is used.
pub fn no_free_place(alloc: Global) -> Result<ApiError, NoMemory>
    ensures value { IfOk result (λ error. error ≡ refusals.no_free_place) }
{
    refusal(alloc, 503, 20007, b"no free stream place")
}
