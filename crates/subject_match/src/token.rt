//! The tokens of a text, one after the other.

ghost use Rattle.std.specs.Prelude.{◌≡◌, ◌==◌, ◌∷◌, ◌+◌, length, position, is_none};
ghost use Rattle.std.specs.Option.{option_copied};
ghost use Rattle.js_base.specs.Bytes.{is_empty, same};
ghost use Rattle.js_base.specs.Subjects.{tokens, star, rest};
ghost use Rattle.subject_match.specs.Tokens.{tokens_left, size_left};

/// The first token, and what follows its dot, if it has one.
pub(crate) fn split_token(text: &[u8]) -> (&[u8], Option<&[u8]>)
    ensures tokens { tokens text.now ≡ result.0.now ∷ tokens_left (option_copied result.1) }
    ensures last { is_none result.1 ≡ is_empty (tokens_left (option_copied result.1)) }
    ensures size { length result.0.now + size_left (option_copied result.1) ≡ length text.now }
{
    match first_dot(text) {
        Some(at) => (&text[..at], Some(&text[at + 1..])),
        None => (text, None),
    }
}

/// The place of the first dot.
fn first_dot(text: &[u8]) -> Option<usize>
    ensures value { result ≡ position (λ byte. byte == 46) text.now }
{
    text.iter().position(|byte| *byte == b'.')
}

/// Whether the token is `*`.
pub(crate) fn is_star(token: &[u8]) -> bool
    ensures value { result ≡ same token.now star }
{
    token == b"*".as_slice()
}

/// Whether the token is `>`.
pub(crate) fn is_rest(token: &[u8]) -> bool
    ensures value { result ≡ same token.now rest }
{
    token == b">".as_slice()
}
