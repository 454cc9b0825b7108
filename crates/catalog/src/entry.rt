//! What the catalog knows of a place.

ghost use Rattle.std.specs.Prelude.{◌≡◌, ◌<◌, ◌^◌, true, [], ◌∷◌, ◌++◌, IsTrue, Some, None};
ghost use Rattle.std.specs.List.{list_any};
ghost use Rattle.js_model.specs.Catalog.{kept_stream, list_or_none, takes_subject, is_used, taken_by, on_used, changing, kept_list, keeping, freed, stopping};
ghost use Rattle.js_model.specs.Cataloging.{MayChange};
ghost use Rattle.js_base.specs.Subjects.{tokens, matches};
ghost use Rattle.catalog.specs.Numbers.{is_of};
ghost use Rattle.catalog.specs.Entries.{subjects_of, used_of, place_of, lists_of, lists_of_stream, LeavesList, is_open, accepts};

use crate::listing::PLACES;
use js_base::{Blob, List, Name};
use subject_match::matches;

/// A list of subjects, which are patterns, and the number of the first one in the index. Those of the others follow, 32 apart.
#[derive(Drop, Debug)]
pub(crate) struct Listed {
    pub(crate) first: u64,
    pub(crate) subjects: List<Blob>,
}

/// The stream at a place.
#[derive(Drop, Debug)]
pub(crate) struct Stream {
    pub(crate) name: Name,
    /// Its subjects.
    pub(crate) current: Listed,
    /// Those that are to replace them, while a change is open.
    pub(crate) replacing: Option<Listed>,
    /// Whether its place is stopped.
    pub(crate) stopped: bool,
}

/// A place: the incarnation that it keeps, and its stream.
#[derive(Drop, Debug)]
pub(crate) struct Entry {
    pub(crate) incarnation: u64,
    pub(crate) used: Option<Stream>,
}

/// Which place is looked for.
#[derive(Clone, Copy)]
pub(crate) enum Sought<'a> {
    /// One whose stream takes the subject.
    Taker(&'a [u8]),
    /// One that has one of the numbers.
    Among(&'a [u64]),
    /// One without a stream.
    Free,
}

/// Whether one of the patterns matches the subject.
fn takes(patterns: &[Blob], subject: &[u8]) -> bool
    ensures value { result ≡ list_any (λ pattern. matches (tokens pattern) (tokens subject.now)) patterns.now }
{
    patterns
        .iter()
        .any(|pattern| matches(pattern.as_slice(), subject))
}

/// Whether one of the numbers is one of this place.
fn has_number_of(ids: &[u64], place: u32) -> bool
    ensures value { result ≡ list_any (is_of place) ids.now }
{
    ids.iter().any(|id| *id % PLACES == u64::from(place))
}

impl Stream {
    /// A stream with one list of subjects, at a place that is not stopped.
    pub(crate) fn new(name: Name, current: Listed) -> Stream
        ensures value { used_of result ≡ kept_stream (name, subjects_of current) }
        ensures lists { lists_of_stream result ≡ current ∷ [] }
    {
        Stream {
            name,
            current,
            replacing: None,
            stopped: false,
        }
    }

    /// The subjects that are to replace the stream's, none where no change is open.
    fn replacing(&self) -> &[Blob]
        ensures value { result.now ≡ list_or_none (used_of self.now).new_subjects }
    {
        match &self.replacing {
            Some(listed) => listed.subjects.as_slice(),
            None => &[],
        }
    }

    /// Whether one of the stream's patterns matches the subject.
    fn takes(&self, subject: &[u8]) -> bool
        ensures value { result ≡ takes_subject subject.now (used_of self.now) }
    {
        takes(self.current.subjects.as_slice(), subject) || takes(self.replacing(), subject)
    }

    /// Keeps the new subjects or the old ones, and gives the others back.
    fn keep_one(&mut self, listed: Listed, new: bool) -> Listed
        requires single { self.old.replacing ≡ None }
        ensures value { used_of self.new ≡ kept_list new (used_of self.old) (Some (subjects_of listed)) }
        ensures left { LeavesList (self.old.current ∷ listed ∷ []) (Some result) (lists_of_stream self.new) }
    {
        if new {
            std::mem::replace(&mut self.current, listed)
        } else {
            listed
        }
    }

    /// Drops the old or the new subjects, where there are both, and gives them back. At a stopped place nothing changes.
    fn keep(&mut self, new: bool) -> Option<Listed>
        ensures value { used_of self.new ≡ keeping new (used_of self.old) }
        ensures left { LeavesList (lists_of_stream self.old) result (lists_of_stream self.new) }
    {
        if self.stopped {
            return None;
        }
        match self.replacing.take() {
            Some(listed) => Some(self.keep_one(listed, new)),
            None => None,
        }
    }
}

impl Entry {
    /// Whether it is one that is looked for, as the place of this number.
    pub(crate) fn fits(&self, number: u32, sought: Sought<'_>) -> bool
        ensures value { result ≡ accepts sought.entry number (place_of self.now) }
    {
        match (sought, &self.used) {
            (Sought::Among(ids), _) => has_number_of(ids, number),
            (Sought::Taker(subject), Some(stream)) => stream.takes(subject),
            (Sought::Free, None) => true,
            _ => false,
        }
    }

    /// Whether it has a stream.
    pub(crate) fn is_used(&self) -> bool
        ensures value { result ≡ is_used (place_of self.now) }
    {
        self.used.is_some()
    }

    /// Whether it has a stream whose place is not stopped.
    pub(crate) fn is_open(&self) -> bool
        ensures value { result ≡ is_open (place_of self.now) }
    {
        match &self.used {
            Some(stream) => !stream.stopped,
            None => false,
        }
    }

    /// Gives the place to a stream.
    pub(crate) fn take(&mut self, name: Name, current: Listed)
        ensures value { place_of self.new ≡ taken_by name (subjects_of current) (place_of self.old) }
        ensures lists { lists_of self.new ≡ current ∷ [] }
    {
        self.used = Some(Stream::new(name, current));
    }

    /// Puts the new subjects of the stream beside its old ones.
    pub(crate) fn change(&mut self, listed: Listed)
        requires open { is_open (place_of self.old) ≡ true }
        requires single { MayChange (place_of self.old) }
        ensures value { place_of self.new ≡ on_used (changing (subjects_of listed)) (place_of self.old) }
        ensures lists { lists_of self.new ≡ lists_of self.old ++ listed ∷ [] }
    {
        if let Some(stream) = &mut self.used {
            stream.replacing = Some(listed);
        }
    }

    /// Drops the old or the new subjects of the stream, and gives them back.
    pub(crate) fn keep(&mut self, new: bool) -> Option<Listed>
        ensures value { place_of self.new ≡ on_used (keeping new) (place_of self.old) }
        ensures left { LeavesList (lists_of self.old) result (lists_of self.new) }
    {
        match &mut self.used {
            Some(stream) => stream.keep(new),
            None => None,
        }
    }

    /// Frees the place, and gives its stream back. After a stream that was dropped it keeps the next incarnation.
    pub(crate) fn free(&mut self, dropped: bool) -> Option<Stream>
        requires number { IsTrue dropped → self.old.incarnation < 2 ^ 62 }
        ensures value { place_of self.new ≡ freed dropped (place_of self.old) }
        ensures lists { lists_of self.new ≡ [] }
        ensures stream { result ≡ self.old.used }
    {
        if dropped {
            self.incarnation += 1;
        }
        self.used.take()
    }

    /// Marks the place stopped.
    pub(crate) fn stop(&mut self)
        ensures value { place_of self.new ≡ on_used stopping (place_of self.old) }
        ensures lists { lists_of self.new ≡ lists_of self.old }
    {
        if let Some(stream) = &mut self.used {
            stream.stopped = true;
        }
    }
}
