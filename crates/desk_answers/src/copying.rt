//! Copies of values whose texts are shared.

ghost use Rattle.std.specs.Prelude.{◌≡◌, IfOk};

use js_base::{Blob, List, NoMemory};
use js_model::{ConsumerInfo, GetBy, StreamInfo, copy_consumer_config, copy_stream_config};
use std::alloc::Global;

/// A copy of a stream's information. Its texts are shared.
pub fn copy_info(alloc: Global, info: &StreamInfo) -> Result<StreamInfo, NoMemory>
    ensures copy { IfOk result (λ copy. copy ≡ info.now) }
{
    Ok(StreamInfo {
        config: copy_stream_config(alloc, &info.config)?,
        made: info.made,
        messages: info.messages,
        bytes: info.bytes,
        first_seq: info.first_seq,
        first_at: info.first_at,
        last_seq: info.last_seq,
        last_at: info.last_at,
        consumers: info.consumers,
    })
}

/// A copy of a consumer's information. Its texts are shared.
pub fn copy_consumer_info(info: &ConsumerInfo) -> Result<ConsumerInfo, NoMemory>
    ensures copy { IfOk result (λ copy. copy ≡ info.now) }
{
    Ok(ConsumerInfo {
        stream: info.stream.clone()?,
        name: info.name.clone()?,
        made: info.made,
        config: copy_consumer_config(&info.config)?,
        info: info.info,
    })
}

/// Copies of the informations of consumers.
pub fn copy_consumer_infos(
    alloc: Global,
    infos: &[ConsumerInfo],
) -> Result<List<ConsumerInfo>, NoMemory>
    ensures copy { IfOk result (λ copies. copies ≡ infos.now) }
{
    let mut copies = List::new(alloc);
    for info in infos {
        copies.push(copy_consumer_info(info)?)?;
    }
    Ok(copies)
}

/// A copy of a reply subject, if there is one. Its text is shared.
pub fn copy_reply(to: &Option<Blob>) -> Result<Option<Blob>, NoMemory>
    ensures copy { IfOk result (λ copy. copy ≡ to.now) }
{
    Ok(to.clone()?)
}

/// A copy of which message is read. Its text is shared.
pub fn copy_by(by: &GetBy) -> Result<GetBy, NoMemory>
    ensures copy { IfOk result (λ copy. copy ≡ by.now) }
{
    match by {
        GetBy::Seq(seq) => Ok(GetBy::Seq(*seq)),
        GetBy::LastBySubject(subject) => Ok(GetBy::LastBySubject(subject.clone()?)),
    }
}
