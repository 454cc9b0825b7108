//! A message's frame, and its length.

ghost use Rattle.std.specs.Prelude.{◌≡◌, ◌<◌, ◌^◌, [], IfOk, if◌then◌else◌, length};
ghost use Rattle.js_base.specs.Framing.{frame as bytes_of};
ghost use Rattle.js_model.specs.Router.{frame_for};

use js_base::{Blob, Frame, NoMemory, Out, message_len};
use std::marker::Model;

/// No frame is this long: none fits in memory.
const TOO_LONG: u128 = 1 << 63;

/// A frame, and how many bytes it has.
#[derive(Drop)]
pub(crate) struct MeasuredFrame {
    frame: Frame,
    length: u64,
}

impl Model for MeasuredFrame {
    ghost use Rattle.js_base.specs.declared.frame.Frame.{Frame as Shown};
    ghost use Rattle.route_core.specs.Queues.{IsMeasured};

    ghost Value = { Shown };

    ghost view = { λ measured. measured.frame };

    ghost invariant = { λ measured. IsMeasured measured.frame measured.length };
}

impl MeasuredFrame {
    /// The message under a subscription's identifier, for a client that takes header blocks or none. Its texts and its payload are shared,
    /// and none is copied. A message of 2^63 bytes or more finds no memory.
    pub(crate) fn message(out: &Out, sid: &Blob, headers: bool) -> Result<MeasuredFrame, NoMemory>
        ensures value { IfOk result (λ measured. measured ≡ frame_for out.now sid.now headers) }
    {
        let headers = share_headers(&out.headers, headers)?;
        let length = message_len(&out.subject, sid, &out.reply, &headers, &out.payload);
        if length >= TOO_LONG {
            return Err(NoMemory);
        }
        Ok(MeasuredFrame {
            frame: message(out, sid, headers)?,
            length: length as u64,
        })
    }

    /// How many bytes it has.
    pub(crate) fn len(&self) -> u64
        ensures value { result ≡ length (bytes_of self.now) }
        ensures short { result < 2 ^ 63 }
    {
        self.length
    }

    /// The frame.
    pub(crate) fn into_frame(self) -> Frame
        ensures value { result ≡ self }
    {
        self.frame
    }
}

/// The reply subject, shared.
fn share_reply(reply: &Option<Blob>) -> Result<Option<Blob>, NoMemory>
    ensures value { IfOk result (λ shared. shared ≡ reply.now) }
{
    match reply {
        Some(reply) => Ok(Some(reply.clone()?)),
        None => Ok(None),
    }
}

/// The header block, shared, or none for a client that takes none.
fn share_headers(block: &Blob, headers: bool) -> Result<Blob, NoMemory>
    ensures value { IfOk result (λ shared. shared ≡ (if headers then block.now else [])) }
{
    if headers {
        Ok(block.clone()?)
    } else {
        Ok(Blob::empty())
    }
}

/// The message with this header block.
fn message(out: &Out, sid: &Blob, headers: Blob) -> Result<Frame, NoMemory>
    ensures value { IfOk result (λ frame. frame ≡ Frame.Msg out.now.subject sid.now out.now.reply headers out.now.payload) }
{
    Ok(Frame::Msg {
        subject: out.subject.clone()?,
        sid: sid.clone()?,
        headers,
        payload: out.payload.clone()?,
        reply: share_reply(&out.reply)?,
    })
}
