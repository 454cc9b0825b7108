//! An error line, by the NATS client protocol's `-ERR`.

ghost use Rattle.std.specs.Prelude.{◌≡◌, ◌++◌, OnOk};
ghost use Rattle.session.specs.Peer.{error_line};

use js_base::{Blob, Frame, NoMemory};
use nats_frames::write_frame;
use std::alloc::Global;

/// Adds the error line with this text.
pub(crate) fn write_error(alloc: Global, text: &[u8], into: &mut Vec<u8>) -> Result<(), NoMemory>
    ensures ok { OnOk result (into.new.items ≡ into.old.items ++ error_line text.now) }
{
    let text = Blob::of(alloc, text)?;
    write_frame(&Frame::Err { text }, into)
}
