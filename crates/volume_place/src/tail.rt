//! What of a place waits for a commit.

ghost use Rattle.std.specs.Prelude.{◌≡◌, ◌<◌, ◌+◌, ◌++◌, [], true, false, not, take, drop, vec_len, IfOk, OnErr, OnOk, IsTrue};
ghost use Rattle.std.specs.List.{list_all};
ghost use Rattle.effects.specs.declared.effect.Effect.{Effect};
ghost use Rattle.op_records.specs.Allowed.{is_record};
ghost use Rattle.place_engine.specs.Following.{begins_with_moment, followed, is_now};
ghost use Rattle.place_records.specs.Records.{effects_in};
ghost use Rattle.stream_store.specs.Committing.{batch_length};
ghost use Rattle.volume_place.specs.Measured.{HaveLengths};
ghost use Rattle.volume_place.specs.Since.{is_moment};
ghost use Rattle.volume_place.specs.Tail.{ends_with_moment, is_small};

use crate::lengths::{Lengths, lengths_of};
use effects::Effect;
use js_base::NoMemory;
use place_records::Made;
use std::alloc::Global;
use std::marker::Model;

/// With so many records a tail is committed.
const MAX_RECORDS: usize = 1 << 10;

/// With so many bytes a tail is committed.
const MAX_BYTES: usize = 1 << 20;

/// The records of what was made since the last commit, in their order.
#[derive(Drop)]
pub(crate) struct Tail {
    records: Vec<Effect>,
    /// How many of them, the first ones, were measured.
    measured: usize,
    /// How long these are.
    lengths: Lengths,
}

impl Model for Tail {
    ghost use Rattle.std.specs.Prelude.{List};
    ghost use Rattle.effects.specs.declared.effect.Effect.{Effect};
    ghost use Rattle.volume_place.specs.Measured.{IsMeasured};

    ghost Value = { List Effect };

    ghost view = { λ tail. tail.records.items };

    ghost invariant = { λ tail. IsMeasured tail.records.items tail.measured tail.lengths };
}

impl Tail {
    /// No records. It takes no memory.
    pub(crate) fn new(alloc: Global) -> Tail
        ensures none { result ≡ [] }
    {
        Tail {
            records: Vec::new(alloc),
            measured: 0,
            lengths: Lengths::none(),
        }
    }

    /// The records.
    pub(crate) fn records(&self) -> &[Effect]
        ensures value { result.now ≡ self.now }
    {
        self.records.as_slice()
    }

    /// Moves the records of what was made behind the others, of which a moment at their end gives way to one with which those begin, and tells whether they are
    /// more than a moment. An `Err` leaves all as it was.
    pub(crate) fn take(&mut self, made: &mut Made) -> Result<bool, NoMemory>
        ensures ok { OnOk result (self.new ≡ followed self.old (effects_in made.old)) }
        ensures none { OnOk result (effects_in made.new ≡ []) }
        ensures more { IfOk result (λ more. more ≡ not (is_moment (effects_in made.old))) }
        ensures err { OnErr result (self.new ≡ self.old) }
        ensures made_left { OnErr result (made.new ≡ made.old) }
    {
        let count = self.records.len();
        made.give_to(&mut self.records)?;
        let (waiting, behind) = self.records.as_slice().split_at(count);
        let more = !is_moment(behind);
        if begins_with_moment(behind) && ends_with_moment(waiting) {
            // one moment is as long as another, so that what was measured stays
            drop_record(&mut self.records, count - 1);
        }
        Ok(more)
    }

    /// How long the records are, each of which is measured once.
    fn lengths(&mut self, alloc: Global) -> Result<Lengths, NoMemory>
        requires records { IsTrue (list_all is_record self.old) }
        ensures same { self.new ≡ self.old }
        ensures value { IfOk result (HaveLengths self.old) }
    {
        let more = lengths_of(alloc, self.records.as_slice().split_at(self.measured).1)?;
        let Some(lengths) = self.lengths.plus(more) else {
            return Err(NoMemory);
        };
        self.lengths = lengths;
        self.measured = self.records.len();
        Ok(lengths)
    }

    /// In how many bytes a log has the records.
    pub(crate) fn logged_len(&mut self, alloc: Global) -> Result<usize, NoMemory>
        requires records { IsTrue (list_all is_record self.old) }
        ensures same { self.new ≡ self.old }
        ensures value { IfOk result (λ bytes. bytes ≡ batch_length self.old) }
    {
        Ok(self.lengths(alloc)?.logged)
    }

    /// Whether they are so few and so short that they may wait.
    pub(crate) fn is_small(&mut self, alloc: Global) -> Result<bool, NoMemory>
        requires records { IsTrue (list_all is_record self.old) }
        ensures same { self.new ≡ self.old }
        ensures value { IfOk result (λ small. small ≡ is_small self.old) }
    {
        if self.records.len() >= MAX_RECORDS {
            return Ok(false);
        }
        Ok(self.lengths(alloc)?.waiting < MAX_BYTES)
    }

    /// Forgets the records.
    pub(crate) fn clear(&mut self)
        ensures none { self.new ≡ [] }
    {
        self.records.clear();
        self.measured = 0;
        self.lengths = Lengths::none();
    }
}

/// Drops the record at an index.
fn drop_record(records: &mut Vec<Effect>, index: usize)
    requires within { index < vec_len records.old }
    ensures items { records.new.items ≡ take index records.old.items ++ drop (index + 1) records.old.items }
{
    records.remove(index);
}

/// Whether the first record tells a moment.
fn begins_with_moment(records: &[Effect]) -> bool
    ensures value { result ≡ begins_with_moment records.now }
{
    match records.first() {
        Some(effect) => is_now(effect),
        None => false,
    }
}

/// Whether the last one does.
fn ends_with_moment(records: &[Effect]) -> bool
    ensures value { result ≡ ends_with_moment records.now }
{
    match records.last() {
        Some(effect) => is_now(effect),
        None => false,
    }
}

/// Whether the record tells a moment, and nothing else.
pub(crate) fn is_now(effect: &Effect) -> bool
    ensures value { result ≡ is_now effect.now }
{
    matches!(effect, Effect::Now { .. })
}

/// Whether there is no record, or one that tells the moment.
fn is_moment(records: &[Effect]) -> bool
    ensures value { result ≡ is_moment records.now }
{
    match records {
        [] | [Effect::Now { .. }] => true,
        _ => false,
    }
}
