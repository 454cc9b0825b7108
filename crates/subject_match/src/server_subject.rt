//! The server's own subjects, those below `$JS.`.

ghost use Rattle.std.specs.Prelude.{◌≡◌};
ghost use Rattle.js_base.specs.ServerSubjects.{is_api, is_acknowledgement};
ghost use Rattle.js_base.specs.Subjects.{is_stream_subject};

use crate::check::check_pattern;
use crate::matching::overlaps;

/// Whether a stream may take the text's subjects: it is a pattern, and meets no subject below `$JS.`.
pub fn is_stream_subject(text: &[u8]) -> bool
    ensures value { result ≡ is_stream_subject text.now }
{
    check_pattern(text).is_ok() && !overlaps(text, b"$JS.>")
}

/// Whether the subject begins with `$JS.API.`, as those of the JetStream API's calls do.
pub fn is_api(subject: &[u8]) -> bool
    ensures value { result ≡ is_api subject.now }
{
    subject.starts_with(b"$JS.API.")
}

/// Whether the subject begins with `$JS.ACK.`, as those do to which consumers' messages are acknowledged.
pub fn is_acknowledgement(subject: &[u8]) -> bool
    ensures value { result ≡ is_acknowledgement subject.now }
{
    subject.starts_with(b"$JS.ACK.")
}
