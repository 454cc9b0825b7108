//! The next messages of several subjects, from which those of all of them are taken in the order of their sequences.

ghost use Rattle.std.specs.Prelude.{◌≡◌, ◌==◌, ℕ, Bool, IfOk, OnOk};
ghost use Rattle.std.specs.List.{list_any};
ghost use Rattle.std.specs.Ordering.{nat_cmp};
ghost use Rattle.std.specs.BTreeSet.{contains};
ghost use Rattle.js_base.specs.Bytes.{same, Bytes};
ghost use Rattle.stored_stream.specs.Heads.{following, AreHeads, IsWith, TakesHead};
ghost use Rattle.stored_stream.specs.Stored.{IsSound};

use crate::stored::StoredStream;
use js_base::NoMemory;
use std::alloc::Global;
use std::collections::BTreeSet;
use stream_view::Counts;

/// The next message of each of some subjects, by its sequence.
pub(crate) type Heads = BTreeSet<u64>;

/// The first message of the subject, if there is one.
pub(crate) fn head_of(
    alloc: Global,
    stream: &StoredStream,
    subject: &[u8],
) -> Result<Heads, NoMemory>
    requires sound { IsSound stream.now }
    ensures value { IfOk result (λ heads. AreHeads (λ t. same t subject.now) stream.now.messages 0 heads) }
{
    let mut heads = BTreeSet::new(alloc);
    put_head(&mut heads, stream.messages().at_or_after(subject, 0))?;
    Ok(heads)
}

/// The first messages of the subjects that are counted so.
pub(crate) fn heads_of(alloc: Global, counted: &[Counts]) -> Result<Heads, NoMemory>
    ensures value { IfOk result (λ heads. (n : ℕ) → contains nat_cmp heads n ≡ list_any (λ c. c.first == n) counted.now) }
{
    let mut heads = BTreeSet::new(alloc);
    for counts in counted {
        heads.insert(counts.first)?;
    }
    Ok(heads)
}

/// Takes the first of the heads out, and puts the next message of its subject in its place.
pub(crate) fn take_head(stream: &StoredStream, heads: &mut Heads) -> Result<Option<u64>, NoMemory>
    requires sound { IsSound stream.now }
    ensures value { (test : Bytes → Bool) (from : ℕ)
        → AreHeads test stream.now.messages from heads.old
        → IfOk result (λ taken. TakesHead test stream.now.messages from taken heads.new) }
{
    let Some(seq) = heads.pop_first() else {
        return Ok(None);
    };
    put_head(heads, following(stream, seq))?;
    Ok(Some(seq))
}

/// The next message of the subject behind the message of a sequence.
fn following(stream: &StoredStream, seq: u64) -> Option<u64>
    requires sound { IsSound stream.now }
    ensures value { result ≡ following stream.now seq }
{
    let message = stream.get(seq)?;
    stream
        .messages()
        .at_or_after(message.subject.as_slice(), message.seq + 1)
}

/// Puts a message in, if there is one.
fn put_head(heads: &mut Heads, next: Option<u64>) -> Result<(), NoMemory>
    ensures ok { OnOk result (IsWith heads.old next heads.new) }
{
    if let Some(seq) = next {
        heads.insert(seq)?;
    }
    Ok(())
}
