//! What outlives a crash of a stream whose limits hold.

ghost use Rattle.std.specs.Prelude.{◌≡◌, IfOk};
ghost use Rattle.followed_stream.specs.Lasting.{lasting_stream};

use crate::state::StreamState;
use js_base::NoMemory;
use js_model::Stream;

impl StreamState {
    /// What of it outlives a crash: all but the pulls that wait and the marks of consumers. The texts are shared, and its cost grows with how much there is.
    pub fn lasting(&self) -> Result<Stream, NoMemory>
        ensures value { IfOk result (λ lasting. lasting ≡ lasting_stream self.now) }
    {
        self.stream.lasting(self.alloc)
    }
}
