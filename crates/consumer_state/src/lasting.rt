//! What outlives a crash of a consumer.

ghost use Rattle.std.specs.Prelude.{◌≡◌, IfOk};
ghost use Rattle.js_model.specs.Lasting.{lasting_consumer};

use crate::consumer::Consumer;
use js_base::{List, NoMemory};
use js_model::{Consumer as LastingConsumer, copy_consumer_config};

impl Consumer {
    /// What of it outlives a crash: all but the pulls that wait and its mark. Its cost grows with how many sequences it holds.
    pub fn lasting(&self) -> Result<LastingConsumer, NoMemory>
        ensures value { IfOk result (λ lasting. lasting ≡ lasting_consumer self.now) }
    {
        Ok(LastingConsumer {
            name: self.name.clone()?,
            made: self.made,
            config: copy_consumer_config(&self.config)?,
            picks: self.progress.picks()?,
            cursor: self.progress.cursor(),
            dseq: self.progress.dseq(),
            pending: self.progress.pending()?,
            given_up: self.progress.given_up()?,
            waiting: List::new(self.alloc),
            mark: self.made,
        })
    }
}
