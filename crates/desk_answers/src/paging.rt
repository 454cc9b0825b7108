//! The answers that list streams: a page of their names, or of their informations.

ghost use Rattle.std.specs.Prelude.{◌≡◌, IfOk, map};
ghost use Rattle.api_replies.specs.Printed.{IsText};
ghost use Rattle.js_model.specs.declared.reply.StreamInfo.{StreamInfo};
ghost use Rattle.desk_answers.specs.Pages.{list_reply, names_reply};
ghost use Rattle.desk_answers.specs.StreamInfos.{AreSound};

use crate::copying::copy_info;
use crate::ordering::{listed, page};
use js_api::ApiReply;
use js_base::{Blob, List, NoMemory};
use js_model::{INFOS_A_PAGE, NAMES_A_PAGE, StreamInfo};
use std::alloc::Global;

/// The names of the streams.
fn names_of(alloc: Global, infos: &[StreamInfo]) -> Result<List<Blob>, NoMemory>
    ensures value { IfOk result (λ names. names ≡ map (λ (i : StreamInfo). i.config.name) infos.now) }
{
    let mut names = List::new(alloc);
    for info in infos {
        names.push(info.config.name.clone()?)?;
    }
    Ok(names)
}

/// Copies of the informations.
fn copies_of(alloc: Global, infos: &[StreamInfo]) -> Result<List<StreamInfo>, NoMemory>
    ensures value { IfOk result (λ copies. copies ≡ infos.now) }
{
    let mut copies = List::new(alloc);
    for info in infos {
        copies.push(copy_info(alloc, info)?)?;
    }
    Ok(copies)
}

/// The answer with a page of names, from `offset` on: of the streams with a subject that meets the pattern, or of all without one, in the order of
/// their names.
pub fn names_reply(
    alloc: Global,
    offset: u64,
    pattern: &Option<Blob>,
    infos: Vec<StreamInfo>,
) -> Result<ApiReply, NoMemory>
    requires sound { AreSound infos.items }
    ensures value { IfOk result (λ reply. reply ≡ names_reply offset pattern.now infos.items) }
    ensures texts { IfOk result IsText }
{
    let list = listed(alloc, pattern, infos)?;
    let streams = names_of(alloc, page(list.as_slice(), NAMES_A_PAGE, offset))?;
    Ok(ApiReply::StreamNames {
        offset,
        streams,
        total: list.len() as u64,
    })
}

/// The answer with a page of informations, from `offset` on, of the same streams in the same order.
pub fn list_reply(
    alloc: Global,
    offset: u64,
    pattern: &Option<Blob>,
    infos: Vec<StreamInfo>,
) -> Result<ApiReply, NoMemory>
    requires sound { AreSound infos.items }
    ensures value { IfOk result (λ reply. reply ≡ list_reply offset pattern.now infos.items) }
    ensures texts { IfOk result IsText }
{
    let list = listed(alloc, pattern, infos)?;
    let streams = copies_of(alloc, page(list.as_slice(), INFOS_A_PAGE, offset))?;
    Ok(ApiReply::StreamList {
        offset,
        streams,
        total: list.len() as u64,
    })
}
