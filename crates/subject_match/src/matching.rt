//! Which subjects a pattern matches.

ghost use Rattle.std.specs.Prelude.{◌≡◌};
ghost use Rattle.js_base.specs.Subjects.{tokens, matches, meets};

use crate::token::{is_rest, is_star, split_token};

/// Whether the pattern matches the subject: token by token. `*` stands for one token, and a last `>` for all that are left, of
/// which there is at least one. Any bytes are taken, and mean the tokens between their dots.
pub fn matches(pattern: &[u8], subject: &[u8]) -> bool
    ensures value { result ≡ matches (tokens pattern.now) (tokens subject.now) }
{
    let mut wanted = Some(pattern);
    let mut given = Some(subject);
    while let Some(pattern) = wanted {
        let Some(subject) = given else {
            return false;
        };
        let (token, more) = split_token(pattern);
        let (other, others) = split_token(subject);
        if is_rest(token) && more.is_none() {
            return true;
        }
        if !is_star(token) && token != other {
            return false;
        }
        wanted = more;
        given = others;
    }
    given.is_none()
}

/// Whether two patterns overlap: if both are patterns, whether some subject is matched by both.
pub fn overlaps(p: &[u8], q: &[u8]) -> bool
    ensures value { result ≡ meets (tokens p.now) (tokens q.now) }
{
    let mut first = Some(p);
    let mut second = Some(q);
    while let Some(p) = first {
        let Some(q) = second else {
            return false;
        };
        let (token, more) = split_token(p);
        let (other, others) = split_token(q);
        if (is_rest(token) && more.is_none()) || (is_rest(other) && others.is_none()) {
            return true;
        }
        if !is_star(token) && !is_star(other) && token != other {
            return false;
        }
        first = more;
        second = others;
    }
    second.is_none()
}
