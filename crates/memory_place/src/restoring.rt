//! Places and streams that are restored to what outlived a crash.

ghost use Rattle.std.specs.Prelude.{◌≡◌, IfOk};
ghost use Rattle.js_model.specs.declared.stream.State.TheVariants.{Live};
ghost use Rattle.effects.specs.Durables.{state_of, stream_of};
ghost use Rattle.restore_laws.specs.Restored.{IsRestored};

use crate::live_stream::LiveStream;
use crate::slot::{Held, Slot};
use effects::{Body, Durable};
use js_base::NoMemory;
use js_model::Stream;
use std::alloc::Global;
use stream_state::StreamState;

impl Slot {
    /// What is opened from what outlived a crash. It goes through the messages, and once more for each consumer.
    pub fn restore(alloc: Global, durable: Durable) -> Result<Slot, NoMemory>
        requires restored { IsRestored (state_of durable) }
        ensures value { IfOk result (λ slot. slot ≡ state_of durable) }
    {
        let Durable { incarnation, body } = durable;
        let held = match body {
            None => Held::Nothing(incarnation),
            Some(body) => {
                let kept = stream_of(incarnation, body);
                Held::Stream(LiveStream::restore(alloc, &kept)?)
            }
        };
        Ok(Slot { alloc, held })
    }
}

impl LiveStream {
    /// The stream that outlived a crash.
    pub fn restore(alloc: Global, kept: &Stream) -> Result<LiveStream, NoMemory>
        requires restored { IsRestored (Live kept.now) }
        ensures value { IfOk result (λ stream. stream ≡ kept.now) }
    {
        let state = StreamState::restore(alloc, kept)?;
        Ok(LiveStream { alloc, state })
    }
}

/// The stream of an incarnation that is opened from what a volume holds of it.
fn stream_of(incarnation: u64, body: Body) -> Stream
    ensures value { result ≡ stream_of incarnation body }
{
    let Body {
        made,
        moment,
        last,
        config,
        messages,
        ids,
        consumers,
    } = body;
    Stream {
        incarnation,
        made,
        config,
        messages,
        last,
        moment,
        ids,
        consumers,
    }
}
