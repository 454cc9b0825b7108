//! Decimal numbers.

ghost use Rattle.std.specs.Prelude.{◌≡◌, ◌^◌, ◌<◌, ◌≤◌, IfSome, IfNone};
ghost use Rattle.js_base.specs.Decimal.{value_of, first_bad, AreDigits, number_of};

use thiserror::Error;

/// Why a text is no decimal number below 2^62.
#[derive(Clone, Copy, Debug, PartialEq, Eq, Error)]
pub enum DecFault {
    /// No bytes at all.
    #[error("no digits")]
    Empty,
    /// The place, counted from 0, of the first byte that is no digit.
    #[error("no digit at {0}")]
    BadDigit(usize),
    /// Digits that spell 2^62 or more.
    #[error("2^62 or more")]
    TooBig,
}

/// The place of the first byte that is no digit.
fn first_bad(text: &[u8]) -> Option<usize>
    ensures value { result ≡ first_bad text.now }
    ensures none { IfNone result (AreDigits text.now) }
{
    text.iter().position(|byte| !byte.is_ascii_digit())
}

/// The number that the digits spell, if it is below 2^62.
fn small_value(text: &[u8]) -> Option<u64>
    requires { AreDigits text.now }
    ensures some { IfSome result (λ n. (n ≡ value_of text.now) × (n < 2 ^ 62)) }
    ensures none { IfNone result (2 ^ 62 ≤ value_of text.now) }
{
    let mut n: u64 = 0;
    for digit in text {
        if n >= 1 << 60 {
            return None;
        }
        n = n * 10 + u64::from(*digit - b'0');
    }
    if n < 1 << 62 { Some(n) } else { None }
}

/// The number that the text spells in decimal digits, as the NATS protocols write sizes and sequences. Leading zeros are allowed. An empty
/// text is `Empty`; otherwise the first byte that is no digit is `BadDigit`, however long the text is; otherwise a number of 2^62 or more is
/// `TooBig`.
pub fn read_decimal(text: &[u8]) -> Result<u64, DecFault>
    ensures { result ≡ number_of text.now }
{
    if text.is_empty() {
        return Err(DecFault::Empty);
    }
    if let Some(at) = first_bad(text) {
        return Err(DecFault::BadDigit(at));
    }
    match small_value(text) {
        Some(n) => Ok(n),
        None => Err(DecFault::TooBig),
    }
}
