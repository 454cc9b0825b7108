//! Lines of a header block.

ghost use Rattle.std.specs.Prelude.{◌≡◌, ◌+◌, ◌==◌, [], ◌∷◌, length, position, slice_index, MatchOption, IfSome};
ghost use Rattle.js_base.specs.Bytes.{has};
ghost use Rattle.js_base.specs.Headers.{block_lines, ends_with_cr, is_version_line, is_field_line};
ghost use Rattle.nats_headers.specs.Reading.{past_blanks, up_to_blanks, colon_at, is_named, value_of};

use js_base::is_blank;

/// The place of the first such byte.
pub(crate) fn place_of(byte: u8, text: &[u8]) -> Option<usize>
    ensures value { result ≡ position (λ other. other == byte) text.now }
{
    text.iter().position(|other| *other == byte)
}

/// The first line without its LF, and what follows it.
pub(crate) fn cut_line(text: &[u8]) -> Option<(&[u8], &[u8])>
    ensures cut { MatchOption result (block_lines text.now ≡ text.now ∷ []) (λ p. block_lines text.now ≡ p.0.now ∷ block_lines p.1.now) }
    ensures size { IfSome result (λ p. length p.0.now + 1 + length p.1.now ≡ length text.now) }
{
    match place_of(b'\n', text) {
        Some(at) => Some((&text[..at], &text[at + 1..])),
        None => None,
    }
}

/// Whether a CR is the last byte, and there is no other.
fn ends_with_cr(line: &[u8]) -> bool
    ensures value { result ≡ ends_with_cr line.now }
{
    match place_of(b'\r', line) {
        Some(at) => at + 1 == line.len(),
        None => false,
    }
}

/// Whether the byte at this place ends the version.
fn ends_version(line: &[u8]) -> bool
    ensures value { result ≡ has (13 ∷ 32 ∷ []) (slice_index line.now 8) }
{
    match line.get(8) {
        Some(byte) => b"\r ".contains(byte),
        None => false,
    }
}

/// Whether the line is `NATS/1.0`, alone or with a space and a text.
pub(crate) fn is_version_line(line: &[u8]) -> bool
    ensures value { result ≡ is_version_line line.now }
{
    ends_with_cr(line) && line.starts_with(b"NATS/1.0") && ends_version(line)
}

/// The place at which the name of a field's line ends.
fn colon_at(line: &[u8]) -> usize
    ensures value { result ≡ colon_at line.now }
{
    place_of(b':', line).unwrap_or(0)
}

/// Whether the line is a name of one or more bytes, a colon and a value.
pub(crate) fn is_field_line(line: &[u8]) -> bool
    ensures value { result ≡ is_field_line line.now }
{
    ends_with_cr(line) && colon_at(line) > 0
}

/// Whether the line is a field of this name.
pub(crate) fn is_named(name: &[u8], line: &[u8]) -> bool
    ensures value { result ≡ is_named name.now line.now }
{
    is_field_line(line) && &line[..colon_at(line)] == name
}

/// The bytes from the first one on that is no blank.
fn past_blanks(text: &[u8]) -> &[u8]
    ensures value { result.now ≡ past_blanks text.now }
{
    let mut text = text;
    while let Some((first, more)) = text.split_first() {
        if !is_blank(*first) {
            return text;
        }
        text = more;
    }
    text
}

/// The bytes up to the last one that is no blank.
fn up_to_blanks(text: &[u8]) -> &[u8]
    ensures value { result.now ≡ up_to_blanks text.now }
{
    let mut text = text;
    while let Some((last, less)) = text.split_last() {
        if !is_blank(*last) {
            return text;
        }
        text = less;
    }
    text
}

/// The value of a field's line, without the blanks around it.
pub(crate) fn value_of(line: &[u8]) -> &[u8]
    ensures value { result.now ≡ value_of line.now }
{
    let text = &line[..line.len().saturating_sub(1)];
    let behind = text.len().min(colon_at(line) + 1);
    up_to_blanks(past_blanks(&text[behind..]))
}
