//! Streams that are restored from what was kept of them.

ghost use Rattle.std.specs.Prelude.{◌≡◌, IfOk};
ghost use Rattle.js_model.specs.Events.{settled};
ghost use Rattle.js_model.specs.Trim.{trim};
ghost use Rattle.followed_stream.specs.Restoring.{IsRestorable};
ghost use Rattle.stream_state.specs.Settled.{AreProper};

use crate::state::StreamState;
use followed_stream::{FollowedStream, Span};
use js_base::NoMemory;
use js_model::Stream;
use std::alloc::Global;

impl StreamState {
    /// The stream that was kept, of which neither the limits nor the retention drop a message. It goes through the messages, and once more for each
    /// consumer.
    pub fn restore(alloc: Global, kept: &Stream) -> Result<StreamState, NoMemory>
        requires kept { IsRestorable kept.now }
        requires proper { AreProper kept.now.consumers }
        requires settled { settled kept.now ≡ kept.now }
        ensures value { IfOk result (λ s. s ≡ kept.now) }
        ensures settled { IfOk result (λ s. trim s ≡ s) }
    {
        let stream = FollowedStream::restore(alloc, kept)?;
        Ok(StreamState {
            alloc,
            stream,
            loose: Span::none(),
            turn: 0,
        })
    }
}
