//! What is read of the bodies of the calls on stored messages.

ghost use Rattle.js_json.specs.Members.{members};
ghost use Rattle.api_requests.specs.Answers.{Reads};
ghost use Rattle.api_requests.specs.Messages.{not_both, purge_in, just_one, message_in, sequence_in};

use crate::fault::ApiFault;
use crate::field::{nothing_in, number_in, pattern_in, positive_in, subject_in};
use js_base::Blob;
use js_json::Fields;
use js_model::GetBy;
use js_model::refusals::invalid_value;
use std::alloc::Global;

/// Which messages are purged.
#[derive(Drop)]
pub(crate) struct Purge {
    /// Those that it matches; all of them if it is empty.
    pub(crate) filter: Blob,
    /// Those below it.
    pub(crate) seq: Option<u64>,
    /// All but so many of the last ones.
    pub(crate) keep: Option<u64>,
}

/// The purge, unless it has both a sequence and a number to be kept.
fn not_both(alloc: Global, purge: Purge) -> Result<Purge, ApiFault>
    ensures reading { Reads result (not_both purge) }
{
    if purge.seq.is_some() && purge.keep.is_some() {
        Err(ApiFault::Refused(invalid_value(alloc, b"keep")?))
    } else {
        Ok(purge)
    }
}

/// Which messages the fields say to purge.
#[tactic(auto, unfolding(crate::specs::Messages::purge_in))]
pub(crate) fn purge_in(alloc: Global, fields: &Fields) -> Result<Purge, ApiFault>
    ensures reading { Reads result (purge_in (members fields.now)) }
{
    let filter = pattern_in(alloc, fields, "filter")?;
    let keep = positive_in(alloc, fields, "keep")?;
    let seq = positive_in(alloc, fields, "seq")?;
    let filter = filter.unwrap_or(Blob::empty());
    not_both(alloc, Purge { filter, seq, keep })
}

/// The message with this sequence, or the last one of this subject: just one of them is given.
fn just_one(alloc: Global, seq: Option<u64>, subject: Option<Blob>) -> Result<GetBy, ApiFault>
    ensures reading { Reads result (just_one seq subject) }
{
    match (seq, subject) {
        (Some(seq), None) => Ok(GetBy::Seq(seq)),
        (None, Some(subject)) => Ok(GetBy::LastBySubject(subject)),
        (None, None) | (Some(_), Some(_)) => {
            Err(ApiFault::Refused(invalid_value(alloc, b"seq")?))
        }
    }
}

/// Which message the fields ask for.
#[tactic(auto, unfolding(crate::specs::Messages::message_in))]
pub(crate) fn message_in(alloc: Global, fields: &Fields) -> Result<GetBy, ApiFault>
    ensures reading { Reads result (message_in (members fields.now)) }
{
    let subject = subject_in(alloc, fields, "last_by_subj")?;
    nothing_in(alloc, fields, "next_by_subj")?;
    let seq = number_in(alloc, fields, "seq")?;
    let by = just_one(alloc, seq, subject)?;
    nothing_in(alloc, fields, "start_time")?;
    Ok(by)
}

/// The sequence that the fields say.
#[tactic(auto, unfolding(crate::specs::Messages::sequence_in))]
pub(crate) fn sequence_in(alloc: Global, fields: &Fields) -> Result<u64, ApiFault>
    ensures reading { Reads result (sequence_in (members fields.now)) }
{
    match number_in(alloc, fields, "seq")? {
        Some(seq) => Ok(seq),
        None => Err(ApiFault::Refused(invalid_value(alloc, b"seq")?)),
    }
}
