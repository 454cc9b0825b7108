//! What the fields of a stream's configuration may hold.

ghost use Rattle.std.specs.Prelude.{◌≡◌, ◌+◌, pos, IsUtf8};
ghost use Rattle.stream_config.specs.Standings.{allowed, flag_standing, limit_standing, nanos_standing, window_standing, count_standing, description_standing, retention_standing, discard_standing, storage_standing, compression_standing, text_standing, number_standing, within, is_subject, subjects_standing};
ghost use Rattle.std.specs.List.{list_all};

use js_base::Blob;
use subject_match::is_stream_subject;

/// What the value of a field is.
#[derive(Clone, Copy, Debug, PartialEq, Eq)]
pub(crate) enum Standing {
    /// One that the field may hold.
    Held,
    /// None that the field may hold.
    Invalid,
    /// One that the server leaves out.
    LeftOut,
}

/// What a text may be.
#[derive(Clone, Copy, Debug, PartialEq, Eq)]
pub(crate) enum TextRule {
    /// At most 4,096 bytes.
    Description,
    /// `limits`, `interest` or `workqueue`.
    Retention,
    /// `old` or `new`.
    Discard,
    /// `file`. `memory` is left out.
    Storage,
    /// `none`. Others are left out.
    Compression,
    /// Any text.
    Name,
}

/// What a number may be.
#[derive(Clone, Copy, Debug, PartialEq, Eq)]
pub(crate) enum NumberRule {
    /// -1 or 0 for no limit, or a limit up to this one.
    Limit(u64),
    /// Nanoseconds below 2^62.
    Nanos,
    /// The same, and not above a `max_age` that is not 0.
    Window,
}

/// What a field may hold.
#[derive(Clone, Copy, Debug, PartialEq, Eq)]
pub(crate) enum Rule {
    /// `false`. `true` is left out.
    Flag,
    Text(TextRule),
    Number(NumberRule),
    /// A number up to this one. Others are left out.
    Count(u64),
    /// An object without fields. Others are left out.
    NoParts,
    /// An empty text or an empty list. Others are left out.
    Nothing,
    /// A list of at most 256 patterns that meet no subject of the server's own.
    Subjects,
}

/// The standing of a value that is wrong unless the field may hold it.
fn allowed(may: bool) -> Standing
    ensures value { result ≡ allowed may }
{
    if may {
        Standing::Held
    } else {
        Standing::Invalid
    }
}

/// The standing of a flag.
pub(crate) fn flag_standing(flag: bool) -> Standing
    ensures value { result ≡ flag_standing flag }
{
    if flag {
        Standing::LeftOut
    } else {
        Standing::Held
    }
}

/// Whether the number is one from `low` to `high`.
fn within(low: i128, high: i128, number: i128) -> bool
    ensures value { result ≡ within low high number }
{
    low <= number && number <= high
}

/// The standing of a limit.
fn limit_standing(greatest: u64, number: i128) -> Standing
    ensures value { result ≡ limit_standing greatest number }
{
    allowed(within(-1, i128::from(greatest), number))
}

/// The standing of a number that is left out above `greatest`.
pub(crate) fn count_standing(greatest: u64, number: i128) -> Standing
    ensures value { result ≡ count_standing greatest number }
{
    if within(0, i128::from(greatest), number) {
        Standing::Held
    } else {
        Standing::LeftOut
    }
}

/// The greatest number of nanoseconds.
const MOST_NANOS: i128 = (1 << 62) - 1;

/// The standing of a time in nanoseconds.
fn nanos_standing(number: i128) -> Standing
    ensures value { result ≡ nanos_standing number }
{
    allowed(within(0, MOST_NANOS, number))
}

/// The standing of a duplicate window if messages stay that long, 0 for ever.
fn window_standing(max_age: u64, number: i128) -> Standing
    ensures value { result ≡ window_standing max_age number }
{
    if max_age > 0 && number > i128::from(max_age) {
        Standing::Invalid
    } else {
        nanos_standing(number)
    }
}

impl NumberRule {
    /// The standing of a number if messages stay that long, 0 for ever.
    pub(crate) fn standing(self, max_age: u64, number: i128) -> Standing
        ensures value { result ≡ number_standing self max_age number }
    {
        match self {
            NumberRule::Limit(greatest) => limit_standing(greatest, number),
            NumberRule::Nanos => nanos_standing(number),
            NumberRule::Window => window_standing(max_age, number),
        }
    }
}

/// The standing of a description.
#[tactic(auto, using(crate::proofs::Texts::described))]
fn description_standing(text: &[u8]) -> Standing
    requires utf8 { IsUtf8 text.now }
    ensures value { result ≡ description_standing text.now }
{
    allowed(text.len() <= 4096)
}

/// The standing of a retention policy.
fn retention_standing(text: &[u8]) -> Standing
    ensures value { result ≡ retention_standing text.now }
{
    allowed(
        text == b"limits".as_slice()
            || text == b"interest".as_slice()
            || text == b"workqueue".as_slice(),
    )
}

/// The standing of a discard policy.
fn discard_standing(text: &[u8]) -> Standing
    ensures value { result ≡ discard_standing text.now }
{
    allowed(text == b"old".as_slice() || text == b"new".as_slice())
}

/// The standing of a kind of storage.
fn storage_standing(text: &[u8]) -> Standing
    ensures value { result ≡ storage_standing text.now }
{
    if text == b"file".as_slice() {
        Standing::Held
    } else if text == b"memory".as_slice() {
        Standing::LeftOut
    } else {
        Standing::Invalid
    }
}

/// The standing of a kind of compression.
fn compression_standing(text: &[u8]) -> Standing
    ensures value { result ≡ compression_standing text.now }
{
    if text == b"none".as_slice() {
        Standing::Held
    } else {
        Standing::LeftOut
    }
}

impl TextRule {
    /// The standing of a text.
    pub(crate) fn standing(self, text: &[u8]) -> Standing
        requires utf8 { IsUtf8 text.now }
        ensures value { result ≡ text_standing self text.now }
    {
        match self {
            TextRule::Description => description_standing(text),
            TextRule::Retention => retention_standing(text),
            TextRule::Discard => discard_standing(text),
            TextRule::Storage => storage_standing(text),
            TextRule::Compression => compression_standing(text),
            TextRule::Name => Standing::Held,
        }
    }
}

/// Whether the text is a pattern that meets no subject of the server's own.
#[tactic(auto, unfolding(crate::specs::Standings::is_subject))]
fn is_subject(text: &[u8]) -> bool
    ensures value { result ≡ is_subject text.now }
{
    is_stream_subject(text)
}

/// Whether each of them is such a pattern.
fn each_is_subject(texts: &[Blob]) -> bool
    ensures value { result ≡ list_all is_subject texts.now }
{
    for text in texts {
        if !is_subject(text.as_slice()) {
            return false;
        }
    }
    true
}

/// The standing of a list of subjects.
pub(crate) fn subjects_standing(subjects: &[Blob]) -> Standing
    ensures value { result ≡ subjects_standing subjects.now }
{
    allowed(subjects.len() <= 256 && each_is_subject(subjects))
}
