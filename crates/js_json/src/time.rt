//! The texts of times.

ghost use Rattle.std.specs.Prelude.{◌≡◌, ◌<◌, ◌^◌, ◌*ℤ◌, pos, IfOk, IfSome, option_map};
ghost use Rattle.std.specs.Char.{is_ascii_digit};
ghost use Rattle.std.specs.List.{prefix_len};
ghost use Rattle.jiff.specs.Words.{epoch_day};
ghost use Rattle.js_json.specs.Times.{ahead, time_text};
ghost use Rattle.js_json.specs.TimeReading.{number_at, past, two_behind, day_at, clock_at, fraction_at, distance_at, zone_at, time_at};
ghost use Rattle.js_json.specs.Civil.{day_read, fraction_read, clock_read, shift, IsSmall, moment_if};

use jiff::civil::{Date, Time};
use jiff::fmt::temporal::DateTimePrinter;
use jiff::{Timestamp, civil};
use js_base::{Blob, Moment, NoMemory, read_decimal};
use std::alloc::Global;

/// The number in the first so many bytes, which are digits, and what follows them.
#[tactic(auto, unfolding(crate::specs::TimeReading::number_at))]
fn number_at(width: usize, text: &[u8]) -> Option<(u64, &[u8])>
    ensures value { option_map (λ p. (p.0, p.1.now)) result ≡ number_at width text.now }
    ensures small { IfSome result (λ p. p.0 < 10 ^ width) }
{
    if text.len() < width {
        return None;
    }
    let (digits, rest) = text.split_at(width);
    match read_decimal(digits) {
        Ok(n) => Some((n, rest)),
        Err(_) => None,
    }
}

/// What follows this byte.
#[tactic(auto, unfolding(crate::specs::TimeReading::past))]
fn past(mark: u8, text: &[u8]) -> Option<&[u8]>
    ensures value { option_map (λ rest. rest.now) result ≡ past mark text.now }
{
    match text.split_first() {
        Some((byte, rest)) if *byte == mark => Some(rest),
        _ => None,
    }
}

/// The number in the two digits after this byte, and what follows them.
#[tactic(auto, unfolding(crate::specs::TimeReading::two_behind))]
fn two_behind(mark: u8, text: &[u8]) -> Option<(u64, &[u8])>
    ensures value { option_map (λ p. (p.0, p.1.now)) result ≡ two_behind mark text.now }
    ensures small { IfSome result (λ p. p.0 < 100) }
{
    match past(mark, text) {
        Some(digits) => number_at(2, digits),
        None => None,
    }
}

/// The nanoseconds from 1970 to a day of the calendar, and what follows it.
#[tactic(auto, unfolding(crate::specs::TimeReading::day_at))]
fn day_at(text: &[u8]) -> Option<(i128, &[u8])>
    ensures value { option_map (λ p. (p.0, p.1.now)) result ≡ option_map day_read (day_at text.now) }
    ensures small { IfSome result (λ p. IsSmall p.0) }
{
    let (year, rest) = number_at(4, text)?;
    let (month, rest) = two_behind(b'-', rest)?;
    let (day, rest) = two_behind(b'-', rest)?;
    let date = Date::new(year as i16, month as i8, day as i8).ok()?;
    Some((nanos_to(date), rest))
}

/// The nanoseconds from 1970 to this date.
fn nanos_to(date: Date) -> i128
    ensures value { result ≡ (epoch_day date) *ℤ pos 86_400_000_000_000 }
    ensures small { IsSmall result }
{
    date.duration_since(civil::date(1970, 1, 1)).as_nanos()
}

/// How many digits come first.
fn digits_len(text: &[u8]) -> usize
    ensures value { result ≡ prefix_len is_ascii_digit text.now }
{
    text.iter().take_while(|byte| byte.is_ascii_digit()).count()
}

/// The nanoseconds of the digits after a dot, 1 to 9 of them, or 0 if there is no dot, and what follows them.
#[tactic(auto, unfolding(crate::specs::TimeReading::fraction_at))]
fn fraction_at(text: &[u8]) -> Option<(u64, &[u8])>
    ensures value { option_map (λ p. (p.0, p.1.now)) result ≡ option_map fraction_read (fraction_at text.now) }
    ensures small { IfSome result (λ p. p.0 < 10 ^ 9) }
{
    let Some(text) = past(b'.', text) else {
        return Some((0, text));
    };
    let count = digits_len(text);
    if count > 9 {
        return None;
    }
    let (n, rest) = number_at(count, text)?;
    Some((n * 10u64.pow(9 - count as u32), rest))
}

/// The nanoseconds from midnight to a time of day, and what follows it.
#[tactic(auto, unfolding(crate::specs::TimeReading::clock_at))]
fn clock_at(text: &[u8]) -> Option<(i128, &[u8])>
    ensures value { option_map (λ p. (p.0, p.1.now)) result ≡ option_map clock_read (clock_at text.now) }
    ensures small { IfSome result (λ p. IsSmall p.0) }
{
    let (hour, rest) = number_at(2, text)?;
    let (minute, rest) = two_behind(b':', rest)?;
    let (second, rest) = two_behind(b':', rest)?;
    let (nanos, rest) = fraction_at(rest)?;
    let time = Time::new(hour as i8, minute as i8, second as i8, nanos as i32).ok()?;
    Some((time.duration_since(Time::midnight()).as_nanos(), rest))
}

/// Hours and minutes in nanoseconds, with nothing after them.
#[tactic(auto, unfolding(crate::specs::TimeReading::distance_at))]
fn distance_at(text: &[u8]) -> Option<i128>
    ensures value { result ≡ option_map shift (distance_at ahead text.now) }
    ensures small { IfSome result IsSmall }
{
    let (hours, rest) = number_at(2, text)?;
    let (minutes, rest) = two_behind(b':', rest)?;
    if hours < 24 && minutes < 60 && rest.is_empty() {
        Some(i128::from((hours * 60 + minutes) * 60_000_000_000))
    } else {
        None
    }
}

/// How many nanoseconds the clock is ahead of UTC, with nothing after it.
#[tactic(auto, unfolding(crate::specs::TimeReading::zone_at))]
fn zone_at(text: &[u8]) -> Option<i128>
    ensures value { result ≡ option_map shift (zone_at text.now) }
    ensures small { IfSome result IsSmall }
{
    let (side, rest) = text.split_first()?;
    match side {
        b'Z' if rest.is_empty() => Some(0),
        b'+' => distance_at(rest),
        b'-' => Some(-distance_at(rest)?),
        _ => None,
    }
}

/// The moment so many nanoseconds after 1970 began, if there is one.
fn moment_if(nanos: i128) -> Option<Moment>
    ensures value { result ≡ moment_if nanos }
{
    match u64::try_from(nanos) {
        Ok(nanos) => Moment::of(nanos),
        Err(_) => None,
    }
}

/// The moment whose text this is.
#[tactic(auto, unfolding(crate::specs::TimeReading::time_at))]
pub(crate) fn read_time(text: &[u8]) -> Option<Moment>
    ensures value { result ≡ time_at text.now }
{
    let (day, rest) = day_at(text)?;
    let rest = past(b'T', rest)?;
    let (clock, rest) = clock_at(rest)?;
    let ahead = zone_at(rest)?;
    moment_if(day + clock - ahead)
}

/// The moment in UTC, as `YYYY-MM-DDTHH:MM:SS.nnnnnnnnnZ`.
pub fn time_text(alloc: Global, at: Moment) -> Result<Blob, NoMemory>
    ensures text { IfOk result (λ text. text ≡ time_text at) }
{
    let instant = Timestamp::from_nanosecond(i128::from(at.as_nanos())).unwrap();
    let text = DateTimePrinter::new()
        .precision(Some(9))
        .timestamp_text(instant.to_plain());
    Blob::of(alloc, text.as_str().as_bytes())
}
