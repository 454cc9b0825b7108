//! The tokens of a text, one after the other.

ghost use Rattle.std.specs.Prelude.{◌≡◌, ◌∷◌, ◌+◌, length};
ghost use Rattle.std.specs.Option.{option_copied};
ghost use Rattle.js_base.specs.Subjects.{tokens};
ghost use Rattle.subject_match.specs.Tokens.{tokens_left, size_left};

use crate::beneath::first_dot;

/// The first token, and what follows its dot, if it has one.
pub(crate) fn split_token(text: &[u8]) -> (&[u8], Option<&[u8]>)
    ensures tokens { tokens text.now ≡ result.0.now ∷ tokens_left (option_copied result.1) }
    ensures size { length result.0.now + size_left (option_copied result.1) ≡ length text.now }
{
    match first_dot(text) {
        Some(at) => (&text[..at], Some(&text[at + 1..])),
        None => (text, None),
    }
}
