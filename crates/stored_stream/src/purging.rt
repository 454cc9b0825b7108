//! Messages that are removed on request.

ghost use Rattle.std.specs.Prelude.{◌≡◌, ◌==◌, ◌&&◌, ◌^◌, ◌<◌, Bool, nat_le, not, filter, find, length, map, option_map, take, IfOk, Some};
ghost use Rattle.js_base.specs.Bytes.{Bytes};
ghost use Rattle.js_model.specs.Events.{all_but_last, is_below, purge_list};
ghost use Rattle.js_model.specs.Streams.{seqs};
ghost use Rattle.stored_stream.specs.Heads.{AreHeads};
ghost use Rattle.stored_stream.specs.Selecting.{named, next_named, next_selected};
ghost use Rattle.stored_stream.specs.Stored.{IsSound};

use crate::heads::{Heads, head_of, take_head};
use crate::selector::Selector;
use crate::stored::StoredStream;
use js_base::NoMemory;
use std::alloc::Global;

/// The sequences of the messages that a purge names, by JetStream's stream purge: those that the filter matches, below a sequence, and all
/// but a given number of the last ones. It looks at no message that the filter does not match, and at none that is kept, but with both a
/// sequence and a number at those below the sequence.
pub fn purge_seqs(
    alloc: Global,
    stream: &StoredStream,
    pattern: &[u8],
    below: Option<u64>,
    keep: Option<u64>,
) -> Result<Vec<u64>, NoMemory>
    requires sound { IsSound stream.now }
    ensures value { IfOk result (λ gone. gone.items ≡ seqs (purge_list stream.now pattern.now below keep)) }
{
    let selector = Selector::of(pattern);
    let count = count_purged(alloc, stream, selector, below, keep)?;
    first_named(alloc, stream, selector, below, count)
}

/// How many of them go at most, if a number of the last ones is kept.
fn count_purged(
    alloc: Global,
    stream: &StoredStream,
    selector: Selector<'_>,
    below: Option<u64>,
    keep: Option<u64>,
) -> Result<u64, NoMemory>
    requires sound { IsSound stream.now }
    ensures value { IfOk result (λ count. take count (named selector.entry below stream.now.messages) ≡ all_but_last keep (named selector.entry below stream.now.messages)) }
{
    match keep {
        Some(keep) => count_unkept(alloc, stream, selector, below, keep),
        None => Ok(u64::MAX),
    }
}

/// How many of them go, if this many of the last ones are kept.
fn count_unkept(
    alloc: Global,
    stream: &StoredStream,
    selector: Selector<'_>,
    below: Option<u64>,
    keep: u64,
) -> Result<u64, NoMemory>
    requires sound { IsSound stream.now }
    ensures value { IfOk result (λ count. take count (named selector.entry below stream.now.messages) ≡ all_but_last (Some keep) (named selector.entry below stream.now.messages)) }
{
    let count = count_named(alloc, stream, selector, below)?;
    Ok(count.saturating_sub(keep))
}

/// How many of the selected messages are below a sequence.
fn count_named(
    alloc: Global,
    stream: &StoredStream,
    selector: Selector<'_>,
    below: Option<u64>,
) -> Result<u64, NoMemory>
    requires sound { IsSound stream.now }
    ensures value { IfOk result (λ count. count ≡ length (named selector.entry below stream.now.messages)) }
{
    if below.is_none() {
        return selector.count(stream);
    }
    let all = first_named(alloc, stream, selector, below, u64::MAX)?;
    Ok(all.as_slice().len() as u64)
}

/// The sequences of the first of the selected messages below a sequence, at most so many.
fn first_named(
    alloc: Global,
    stream: &StoredStream,
    selector: Selector<'_>,
    below: Option<u64>,
    most: u64,
) -> Result<Vec<u64>, NoMemory>
    requires sound { IsSound stream.now }
    ensures value { IfOk result (λ gone. gone.items ≡ take most (seqs (named selector.entry below stream.now.messages))) }
{
    match selector {
        Selector::All => first_stored(alloc, stream, below, most),
        Selector::Subject(subject) => {
            let mut heads = head_of(alloc, stream, subject)?;
            first_of_heads(alloc, stream, &mut heads, below, most)
        }
        Selector::Pattern(pattern) => {
            let mut heads = stream.messages().heads_matching(alloc, pattern)?;
            first_of_heads(alloc, stream, &mut heads, below, most)
        }
    }
}

/// The sequences of the first of all messages below a sequence, at most so many.
fn first_stored(
    alloc: Global,
    stream: &StoredStream,
    below: Option<u64>,
    most: u64,
) -> Result<Vec<u64>, NoMemory>
    requires sound { IsSound stream.now }
    ensures value { IfOk result (λ gone. gone.items ≡ take most (seqs (named Selector.All below stream.now.messages))) }
{
    let mut gone = Vec::new(alloc);
    let mut from = 0;
    while (gone.len() as u64) < most {
        let Some(seq) = next_stored(stream, below, from) else {
            return Ok(gone);
        };
        gone.push(seq)?;
        from = seq + 1;
    }
    Ok(gone)
}

/// The sequence of the first one from another sequence on.
fn next_stored(stream: &StoredStream, below: Option<u64>, from: u64) -> Option<u64>
    requires sound { IsSound stream.now }
    ensures value { result ≡ next_named Selector.All below stream.now.messages from }
{
    let seq = next_of_all(stream, from)?;
    if is_below(below, seq) {
        Some(seq)
    } else {
        None
    }
}

/// The sequence of the first message from a sequence on.
fn next_of_all(stream: &StoredStream, from: u64) -> Option<u64>
    ensures value { result ≡ next_selected Selector.All stream.now.messages from }
{
    match stream.first_from(from) {
        Some(message) => Some(message.seq),
        None => None,
    }
}

/// The sequences of the first messages below a sequence of the subjects whose first messages these are, at most so many. It takes them out, and
/// puts those in that come next.
fn first_of_heads(
    alloc: Global,
    stream: &StoredStream,
    heads: &mut Heads,
    below: Option<u64>,
    most: u64,
) -> Result<Vec<u64>, NoMemory>
    requires sound { IsSound stream.now }
    ensures value { (test : Bytes → Bool)
        → AreHeads test stream.now.messages 0 heads.old
        → IfOk result (λ gone. gone.items ≡ take most (seqs (filter (λ m. test m.subject && is_below below m.seq) stream.now.messages))) }
{
    let mut gone = Vec::new(alloc);
    while (gone.len() as u64) < most {
        let Some(seq) = take_head(stream, heads)? else {
            return Ok(gone);
        };
        if !is_below(below, seq) {
            return Ok(gone);
        }
        gone.push(seq)?;
    }
    Ok(gone)
}

/// Whether a sequence is below the limit, if there is one.
fn is_below(limit: Option<u64>, seq: u64) -> bool
    ensures value { result ≡ is_below limit seq }
{
    match limit {
        Some(limit) => seq < limit,
        None => true,
    }
}
