//! How long the server's answers are.

ghost use Rattle.std.specs.Prelude.{◌≡◌, length};
ghost use Rattle.js_base.specs.Framing.{frame as bytes_of};

use crate::write::{BEFORE_CLIENT, BEFORE_HOST, BEFORE_PORT, INFO_END};
use js_base::{Blob, Frame, decimal_len, message_len};

/// The length of the server's information.
fn info_len(client_id: u64, host: &Blob, port: u16) -> u128
    ensures { result ≡ length (bytes_of (Frame.Info client_id host.now port)) }
{
    let fixed = BEFORE_CLIENT.len() + BEFORE_HOST.len() + BEFORE_PORT.len() + INFO_END.len();
    let host = host.len() as u128;
    fixed as u128 + decimal_len(client_id) + host + decimal_len(u64::from(port))
}

/// How many bytes `write_frame` adds for the frame. It takes no memory.
pub fn frame_len(frame: &Frame) -> u128
    ensures length { result ≡ length (bytes_of frame.now) }
{
    match frame {
        Frame::Info {
            client_id,
            host,
            port,
        } => info_len(*client_id, host, *port),
        Frame::Msg {
            subject,
            sid,
            reply,
            headers,
            payload,
        } => message_len(subject, sid, reply, headers, payload),
        Frame::Ping | Frame::Pong => 6,
        Frame::Ok => 5,
        Frame::Err { text } => 9 + text.len() as u128,
    }
}
