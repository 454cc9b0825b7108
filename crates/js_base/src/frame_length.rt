//! How long a frame is, before it is written.

ghost use Rattle.std.specs.Prelude.{◌≡◌, ◌<◌, ◌≤◌, ◌^◌, length, decimal};
ghost use Rattle.js_base.specs.Framing.{message};

use crate::blob::Blob;
use itoa::Buffer;

/// How many digits the number has in decimal.
pub fn decimal_len(n: u64) -> u128
    ensures value { result ≡ length (decimal n) }
    ensures few { result ≤ 40 }
{
    Buffer::new().format(n).len() as u128
}

/// How many bytes there are.
fn bytes(text: &Blob) -> u128
    ensures value { result ≡ length text.now }
    ensures bound { result < 2 ^ 63 }
{
    text.len() as u128
}

/// How many bytes a message's frame has, by the NATS client protocol: `MSG`, or `HMSG` if there is a header block.
pub fn message_len(
    subject: &Blob,
    sid: &Blob,
    reply: &Option<Blob>,
    headers: &Blob,
    payload: &Blob,
) -> u128
    ensures value { result ≡ length (message subject.now sid.now reply.now headers.now payload.now) }
{
    let fields = 1 + bytes(subject) + 1 + bytes(sid);
    let reply = match reply {
        Some(reply) => 1 + bytes(reply),
        None => 0,
    };
    let body = 2 + bytes(headers) + bytes(payload) + 2;
    let sizes = if headers.is_empty() {
        3 + 1 + decimal_len(payload.len() as u64)
    } else {
        4 + 1
            + decimal_len(headers.len() as u64)
            + 1
            + decimal_len(headers.len() as u64 + payload.len() as u64)
    };
    fields + reply + sizes + body
}
