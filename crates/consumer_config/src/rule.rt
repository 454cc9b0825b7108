//! What the fields of a consumer's configuration may hold.

ghost use Rattle.std.specs.Prelude.{◌≡◌, IsUtf8};
ghost use Rattle.std.specs.List.{list_all};
ghost use Rattle.js_model.specs.Configs.{is_description, is_deliver_subject, is_queue_byte, is_queue_name};
ghost use Rattle.consumer_config.specs.Standings.{allowed, flag_standing, within, number_standing, count_standing, heartbeat_standing, is_ack_policy, is_deliver_policy, replay_standing, text_standing, group_standing};

use subject_match::{check_pattern, check_subject};

/// What the value of a field is.
#[derive(Clone, Copy, Debug, PartialEq, Eq)]
pub(crate) enum Standing {
    /// One that the field may hold.
    Held,
    /// None that the field may hold.
    Invalid,
    /// One that the server leaves out.
    LeftOut,
}

/// What a text may be.
#[derive(Clone, Copy, Debug, PartialEq, Eq)]
pub(crate) enum TextRule {
    /// `none`, `all` or `explicit`.
    AckPolicy,
    /// `all`, `last`, `new`, `by_start_sequence`, `by_start_time` or `last_per_subject`.
    DeliverPolicy,
    /// `instant`. `original` is left out.
    ReplayPolicy,
    /// At most 4,096 bytes.
    Description,
    /// A pattern, or empty.
    Filter,
    /// A subject without wildcards that is none of the server's own, or empty.
    DeliverSubject,
    /// Any text.
    Name,
}

/// What a field may hold.
#[derive(Clone, Copy, Debug, PartialEq, Eq)]
pub(crate) enum Rule {
    /// `false`. `true` is left out.
    Flag,
    Text(TextRule),
    /// A number from the one to the other.
    Number(i128, i128),
    /// A number up to this one. Others are left out.
    Count(u64),
    /// An empty text or an empty list. Others are left out.
    Nothing,
    /// A queue name, which needs a deliver subject, or empty.
    Group,
    /// Nanoseconds. Other than 0 they need a deliver subject.
    Heartbeat,
    /// A sequence, or 0 for none. It is read past if the consumer does not start by it.
    StartSequence,
    /// A time. It is read past if the consumer does not start by it.
    StartTime,
}

/// The greatest number.
pub(crate) const MOST: i128 = (1 << 62) - 1;

/// The standing of a value that is wrong unless the field may hold it.
fn allowed(may: bool) -> Standing
    ensures value { result ≡ allowed may }
{
    if may {
        Standing::Held
    } else {
        Standing::Invalid
    }
}

/// The standing of a flag.
pub(crate) fn flag_standing(flag: bool) -> Standing
    ensures value { result ≡ flag_standing flag }
{
    if flag {
        Standing::LeftOut
    } else {
        Standing::Held
    }
}

/// Whether the number is one from `low` to `high`.
fn within(low: i128, high: i128, number: i128) -> bool
    ensures value { result ≡ within low high number }
{
    low <= number && number <= high
}

/// The standing of a number that may be one from `low` to `high`.
pub(crate) fn number_standing(low: i128, high: i128, number: i128) -> Standing
    ensures value { result ≡ number_standing low high number }
{
    allowed(within(low, high, number))
}

/// The standing of a number that is left out above `greatest`.
pub(crate) fn count_standing(greatest: u64, number: i128) -> Standing
    ensures value { result ≡ count_standing greatest number }
{
    if within(0, i128::from(greatest), number) {
        Standing::Held
    } else {
        Standing::LeftOut
    }
}

/// The standing of a heartbeat, if the consumer lacks a deliver subject or not.
pub(crate) fn heartbeat_standing(lacks_subject: bool, number: i128) -> Standing
    ensures value { result ≡ heartbeat_standing lacks_subject number }
{
    allowed(within(0, MOST, number) && !(lacks_subject && number > 0))
}

/// Whether the text names a policy of acknowledgement.
fn is_ack_policy(text: &[u8]) -> bool
    ensures value { result ≡ is_ack_policy text.now }
{
    text == b"none".as_slice() || text == b"all".as_slice() || text == b"explicit".as_slice()
}

/// Whether the text names a policy of delivery.
fn is_deliver_policy(text: &[u8]) -> bool
    ensures value { result ≡ is_deliver_policy text.now }
{
    text == b"all".as_slice()
        || text == b"last".as_slice()
        || text == b"new".as_slice()
        || text == b"by_start_sequence".as_slice()
        || text == b"by_start_time".as_slice()
        || text == b"last_per_subject".as_slice()
}

/// The standing of a replay policy.
fn replay_standing(text: &[u8]) -> Standing
    ensures value { result ≡ replay_standing text.now }
{
    if text == b"instant".as_slice() {
        Standing::Held
    } else if text == b"original".as_slice() {
        Standing::LeftOut
    } else {
        Standing::Invalid
    }
}

/// Whether the text is a description.
#[tactic(auto, using(crate::proofs::Texts::described))]
fn is_description(text: &[u8]) -> bool
    requires utf8 { IsUtf8 text.now }
    ensures value { result ≡ is_description text.now }
{
    text.len() <= 4096
}

/// Whether deliveries may go to the subject.
fn is_deliver_subject(text: &[u8]) -> bool
    ensures value { result ≡ is_deliver_subject text.now }
{
    check_subject(text).is_ok() && !text.starts_with(b"$JS.")
}

impl TextRule {
    /// The standing of a text.
    pub(crate) fn standing(self, text: &[u8]) -> Standing
        requires utf8 { IsUtf8 text.now }
        ensures value { result ≡ text_standing self text.now }
    {
        match self {
            TextRule::AckPolicy => allowed(is_ack_policy(text)),
            TextRule::DeliverPolicy => allowed(is_deliver_policy(text)),
            TextRule::ReplayPolicy => replay_standing(text),
            TextRule::Description => allowed(is_description(text)),
            TextRule::Filter => allowed(text.is_empty() || check_pattern(text).is_ok()),
            TextRule::DeliverSubject => allowed(text.is_empty() || is_deliver_subject(text)),
            TextRule::Name => Standing::Held,
        }
    }
}

/// Whether the byte may stand in a queue name.
fn is_queue_byte(byte: u8) -> bool
    ensures value { result ≡ is_queue_byte byte }
{
    byte != b' ' && byte != b'\t' && byte != b'\r' && byte != b'\n'
}

/// Whether each byte may stand in a queue name.
fn are_queue_bytes(text: &[u8]) -> bool
    ensures value { result ≡ list_all is_queue_byte text.now }
{
    for byte in text {
        if !is_queue_byte(*byte) {
            return false;
        }
    }
    true
}

/// Whether the text is a queue name.
#[tactic(auto, using(crate::proofs::Texts::queue_name))]
fn is_queue_name(text: &[u8]) -> bool
    requires utf8 { IsUtf8 text.now }
    ensures value { result ≡ is_queue_name text.now }
{
    !text.is_empty() && text.len() <= 1024 && are_queue_bytes(text)
}

/// The standing of a queue name, if the consumer lacks a deliver subject or not.
pub(crate) fn group_standing(lacks_subject: bool, text: &[u8]) -> Standing
    requires utf8 { IsUtf8 text.now }
    ensures value { result ≡ group_standing lacks_subject text.now }
{
    allowed(text.is_empty() || (is_queue_name(text) && !lacks_subject))
}
