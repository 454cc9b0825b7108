//! Filters of consumers.

ghost use Rattle.std.specs.Prelude.{◌≡◌};
ghost use Rattle.js_model.specs.Streams.{passes_filter};

use subject_match::matches;

/// Whether a filter matches the subject. An empty one matches all.
pub fn passes(filter: &[u8], subject: &[u8]) -> bool
    ensures value { result ≡ passes_filter filter.now subject.now }
{
    filter.is_empty() || matches(filter, subject)
}
