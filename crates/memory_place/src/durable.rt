//! What outlives a crash of a place.

ghost use Rattle.std.specs.Prelude.{◌≡◌, IfOk};
ghost use Rattle.effects.specs.Durables.{body_of, durable_of};

use crate::live_stream::LiveStream;
use crate::slot::{Held, Slot};
use effects::{Body, Durable};
use js_base::NoMemory;
use js_model::Stream;

impl Slot {
    /// What outlives a crash of the place: all but the pulls that wait and the marks of consumers. The texts are shared, and its cost grows with how much
    /// there is.
    pub fn durable(&self) -> Result<Durable, NoMemory>
        ensures value { IfOk result (λ durable. durable ≡ durable_of self.now) }
    {
        match &self.held {
            Held::Nothing(last) => Ok(Durable {
                incarnation: *last,
                body: None,
            }),
            Held::Stream(stream) => Ok(Durable {
                incarnation: stream.incarnation(),
                body: Some(stream.body()?),
            }),
        }
    }
}

impl LiveStream {
    /// What outlives a crash of the stream.
    pub fn body(&self) -> Result<Body, NoMemory>
        ensures value { IfOk result (λ body. body ≡ body_of self.now) }
    {
        let Stream {
            incarnation: _,
            made,
            config,
            messages,
            last,
            moment,
            ids,
            consumers,
        } = self.state.lasting()?;
        Ok(Body {
            made,
            moment,
            last,
            config,
            messages,
            ids,
            consumers,
        })
    }
}
