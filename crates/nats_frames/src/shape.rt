//! The places of an operation's parts in its bytes.

ghost use Rattle.std.specs.Prelude.{◌≡◌, ◌+◌, ◌<◌, ◌≤◌, ◌^◌, length, option_map, IfOk, IfSome};
ghost use Rattle.nats_frames.specs.Fields.{span, part, IsWithin};
ghost use Rattle.nats_frames.specs.Shapes.{op_in, Fits};

use crate::field::Span;
use crate::line::Line;
use crate::op::Op;
use bytes::Bytes;
use js_base::{Blob, NoMemory};

/// What an operation's line says, and how many bytes it has.
#[derive(Clone, Copy, Debug)]
pub(crate) struct Shape {
    pub(crate) line: Line,
    pub(crate) len: usize,
}

/// The bytes of a part, shared.
fn cut(bytes: &Bytes, span: Span) -> Result<Blob, NoMemory>
    requires { IsWithin bytes.now span }
    ensures { IfOk result (λ blob. blob ≡ part bytes.now span) }
{
    match bytes.slice(span.start..span.end) {
        Ok(part) => Ok(Blob::from(part)),
        Err(_) => Err(NoMemory),
    }
}

/// So many bytes from a place on, shared.
fn cut_from(bytes: &Bytes, start: usize, len: u64) -> Result<Blob, NoMemory>
    requires { start + len ≤ length bytes.now }
    ensures ok { IfOk result (λ blob. blob ≡ part bytes.now (span start len)) }
    ensures bound { start + len < 2 ^ 63 }
{
    prove!(start <= bytes.len());
    cut(bytes, Span::of(start, len as usize))
}

/// The bytes of a part that may be left out, shared.
fn cut_some(bytes: &Bytes, span: Option<Span>) -> Result<Option<Blob>, NoMemory>
    requires { IfSome span (IsWithin bytes.now) }
    ensures { IfOk result (λ blob. blob ≡ option_map (part bytes.now) span) }
{
    match span {
        Some(span) => Ok(Some(cut(bytes, span)?)),
        None => Ok(None),
    }
}

/// The operation whose bytes these are.
pub(crate) fn op_in(bytes: &Bytes, shape: Shape) -> Result<Op, NoMemory>
    requires { Fits bytes.now shape }
    ensures { IfOk result (λ op. op ≡ op_in bytes.now shape) }
{
    let len = shape.len;
    match shape.line {
        Line::Connect { text } => Ok(Op::Connect {
            text: cut(bytes, text)?,
        }),
        Line::Pub {
            subject,
            reply,
            size,
        } => Ok(Op::Pub {
            subject: cut(bytes, subject)?,
            reply: cut_some(bytes, reply)?,
            payload: cut_from(bytes, len, size)?,
        }),
        Line::HPub {
            subject,
            reply,
            header,
            size,
        } => Ok(Op::HPub {
            subject: cut(bytes, subject)?,
            reply: cut_some(bytes, reply)?,
            headers: cut_from(bytes, len, header)?,
            payload: cut_from(bytes, len + header as usize, size - header)?,
        }),
        Line::Sub {
            subject,
            queue,
            sid,
        } => Ok(Op::Sub {
            subject: cut(bytes, subject)?,
            queue: cut_some(bytes, queue)?,
            sid: cut(bytes, sid)?,
        }),
        Line::Unsub { sid, max } => Ok(Op::Unsub {
            sid: cut(bytes, sid)?,
            max,
        }),
        Line::Ping => Ok(Op::Ping),
        Line::Pong => Ok(Op::Pong),
    }
}
