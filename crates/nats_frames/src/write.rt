//! The bytes of what the server answers.

ghost use Rattle.std.specs.Prelude.{◌≡◌, ◌+◌, ◌<◌, ◌^◌, [], ◌∷◌, ◌++◌, codes, length, take, decimal, option_map, OnOk, OnErr};
ghost use Rattle.js_base.specs.Bytes.{crlf};
ghost use Rattle.js_base.specs.Framing.{frame as bytes_of, spaced, optional, message};
ghost use Rattle.nats_frames.specs.Writing.{sizes};

use js_base::{Blob, Frame, NoMemory, put_bytes, put_decimal};

/// The texts before the client's number, the host and the port in the server's information, and the text at its end.
pub(crate) const BEFORE_CLIENT: &[u8] = b"INFO {\"client_id\":";

pub(crate) const BEFORE_HOST: &[u8] = b",\"headers\":true,\"host\":\"";

pub(crate) const BEFORE_PORT: &[u8] = b"\",\"jetstream\":true,\"max_payload\":1048576,\"port\":";

pub(crate) const INFO_END: &[u8] =
    b",\"proto\":1,\"server_id\":\"JSBLOCK\",\"server_name\":\"jsblock\",\"version\":\"2.10.0\"}\r\n";

/// Adds a field and the space before it. An `Err` leaves what was there, perhaps with more after it.
fn put_field(into: &mut Vec<u8>, field: &[u8]) -> Result<(), NoMemory>
    ensures ok { OnOk result (into.new.items ≡ into.old.items ++ spaced field.now) }
    ensures err { OnErr result (take (length into.old.items) into.new.items ≡ into.old.items) }
{
    put_bytes(into, b" ")?;
    put_bytes(into, field)
}

/// Adds a size and the space before it. An `Err` leaves what was there, perhaps with more after it.
fn put_size(into: &mut Vec<u8>, size: usize) -> Result<(), NoMemory>
    ensures ok { OnOk result (into.new.items ≡ into.old.items ++ spaced (decimal size)) }
    ensures err { OnErr result (take (length into.old.items) into.new.items ≡ into.old.items) }
{
    put_bytes(into, b" ")?;
    put_decimal(into, size as u64)
}

/// Adds the fields of a message before its sizes. An `Err` leaves what was there, perhaps with more after it.
fn put_fields(
    into: &mut Vec<u8>,
    subject: &[u8],
    sid: &[u8],
    reply: Option<&[u8]>,
) -> Result<(), NoMemory>
    ensures ok { OnOk result (into.new.items
        ≡ into.old.items ++ (spaced subject.now ++ spaced sid.now ++ optional (option_map (λ text. text.now) reply.entry))) }
    ensures err { OnErr result (take (length into.old.items) into.new.items ≡ into.old.items) }
{
    put_field(into, subject)?;
    put_field(into, sid)?;
    match reply {
        Some(reply) => put_field(into, reply),
        None => Ok(()),
    }
}

/// Adds what follows the sizes of a message. An `Err` leaves what was there, perhaps with more after it.
fn put_body(into: &mut Vec<u8>, headers: &[u8], payload: &[u8]) -> Result<(), NoMemory>
    ensures ok { OnOk result (into.new.items ≡ into.old.items ++ (crlf ++ headers.now ++ payload.now ++ crlf)) }
    ensures err { OnErr result (take (length into.old.items) into.new.items ≡ into.old.items) }
{
    put_bytes(into, b"\r\n")?;
    put_bytes(into, headers)?;
    put_bytes(into, payload)?;
    put_bytes(into, b"\r\n")
}

/// Adds a message without headers. An `Err` leaves what was there, perhaps with more after it.
fn put_plain(
    into: &mut Vec<u8>,
    subject: &[u8],
    sid: &[u8],
    reply: Option<&[u8]>,
    payload: &Blob,
) -> Result<(), NoMemory>
    ensures ok { OnOk result (into.new.items
        ≡ into.old.items ++ message subject.now sid.now (option_map (λ text. text.now) reply.entry) [] payload.now) }
    ensures err { OnErr result (take (length into.old.items) into.new.items ≡ into.old.items) }
{
    put_bytes(into, b"MSG")?;
    put_fields(into, subject, sid, reply)?;
    put_size(into, payload.len())?;
    put_body(into, b"", payload.as_slice())
}

/// Adds the sizes of a message with headers. An `Err` leaves what was there, perhaps with more after it.
fn put_sizes(into: &mut Vec<u8>, headers: &Blob, payload: &Blob) -> Result<(), NoMemory>
    ensures ok { OnOk result (into.new.items ≡ into.old.items ++ sizes headers.now payload.now) }
    ensures err { OnErr result (take (length into.old.items) into.new.items ≡ into.old.items) }
{
    put_size(into, headers.len())?;
    put_size(into, headers.len() + payload.len())
}

/// Adds a message with headers. An `Err` leaves what was there, perhaps with more after it.
#[tactic(auto, using(crate::proofs::Written::headed))]
fn put_headed(
    into: &mut Vec<u8>,
    subject: &[u8],
    sid: &[u8],
    reply: Option<&[u8]>,
    headers: &Blob,
    payload: &Blob,
) -> Result<(), NoMemory>
    requires { 0 < length headers.now }
    ensures ok { OnOk result (into.new.items
        ≡ into.old.items ++ message subject.now sid.now (option_map (λ text. text.now) reply.entry) headers.now payload.now) }
    ensures err { OnErr result (take (length into.old.items) into.new.items ≡ into.old.items) }
{
    put_bytes(into, b"HMSG")?;
    put_fields(into, subject, sid, reply)?;
    put_sizes(into, headers, payload)?;
    put_body(into, headers.as_slice(), payload.as_slice())
}

/// Adds the first half of the server's information. An `Err` leaves what was there, perhaps with more after it.
fn put_client(into: &mut Vec<u8>, client_id: u64, host: &Blob) -> Result<(), NoMemory>
    ensures ok { OnOk result (into.new.items
        ≡ into.old.items ++ (codes "INFO {\"client_id\":" ++ decimal client_id ++ codes ",\"headers\":true,\"host\":\"" ++ host.now)) }
    ensures err { OnErr result (take (length into.old.items) into.new.items ≡ into.old.items) }
{
    put_bytes(into, BEFORE_CLIENT)?;
    put_decimal(into, client_id)?;
    put_bytes(into, BEFORE_HOST)?;
    put_bytes(into, host.as_slice())
}

/// Adds the server's information. An `Err` leaves what was there, perhaps with more after it.
fn put_info(into: &mut Vec<u8>, client_id: u64, host: &Blob, port: u16) -> Result<(), NoMemory>
    ensures ok { OnOk result (into.new.items ≡ into.old.items ++ bytes_of (Frame.Info client_id host.now port)) }
    ensures err { OnErr result (take (length into.old.items) into.new.items ≡ into.old.items) }
{
    put_client(into, client_id, host)?;
    put_bytes(into, BEFORE_PORT)?;
    put_decimal(into, u64::from(port))?;
    put_bytes(into, INFO_END)
}

/// Adds an error's line. An `Err` leaves what was there, perhaps with more after it.
fn put_error(into: &mut Vec<u8>, text: &Blob) -> Result<(), NoMemory>
    ensures ok { OnOk result (into.new.items ≡ into.old.items ++ bytes_of (Frame.Err text.now)) }
    ensures err { OnErr result (take (length into.old.items) into.new.items ≡ into.old.items) }
{
    put_bytes(into, b"-ERR '")?;
    put_bytes(into, text.as_slice())?;
    put_bytes(into, b"'\r\n")
}

fn put_frame(frame: &Frame, into: &mut Vec<u8>) -> Result<(), NoMemory>
    ensures ok { OnOk result (into.new.items ≡ into.old.items ++ bytes_of frame.now) }
    ensures err { OnErr result (take (length into.old.items) into.new.items ≡ into.old.items) }
{
    match frame {
        Frame::Info {
            client_id,
            host,
            port,
        } => put_info(into, *client_id, host, *port),
        Frame::Msg {
            subject,
            sid,
            reply,
            headers,
            payload,
        } => {
            let reply = reply.as_ref().map(|text| text.as_slice());
            if headers.is_empty() {
                put_plain(into, subject.as_slice(), sid.as_slice(), reply, payload)
            } else {
                put_headed(
                    into,
                    subject.as_slice(),
                    sid.as_slice(),
                    reply,
                    headers,
                    payload,
                )
            }
        }
        Frame::Ping => put_bytes(into, b"PING\r\n"),
        Frame::Pong => put_bytes(into, b"PONG\r\n"),
        Frame::Ok => put_bytes(into, b"+OK\r\n"),
        Frame::Err { text } => put_error(into, text),
    }
}

/// Adds the frame's bytes at the end. An `Err` changes nothing.
pub fn write_frame(frame: &Frame, into: &mut Vec<u8>) -> Result<(), NoMemory>
    ensures ok { OnOk result (into.new.items ≡ into.old.items ++ bytes_of frame.now) }
    ensures err { OnErr result (into.new.items ≡ into.old.items) }
{
    let earlier = into.len();
    match put_frame(frame, into) {
        Ok(()) => Ok(()),
        Err(fault) => {
            into.truncate(earlier);
            Err(fault)
        }
    }
}
