//! What is stored of a stream, in lists.

ghost use Rattle.std.specs.Prelude.{◌≡◌, IfOk};

use crate::stored::StoredStream;
use js_base::{List, NoMemory};
use js_model::{Stream, copy_stream_config};
use std::alloc::Global;

impl StoredStream {
    /// All of it in lists, without consumers. The texts are shared, and its cost grows with the number of messages and ids.
    pub fn lasting(&self, alloc: Global) -> Result<Stream, NoMemory>
        ensures value { IfOk result (λ lasting. lasting ≡ self.now) }
    {
        Ok(Stream {
            incarnation: self.incarnation,
            made: self.made,
            config: copy_stream_config(alloc, &self.config)?,
            messages: self.messages.by_sequence().to_list(alloc)?,
            last: self.last,
            moment: self.moment,
            ids: self.ids.to_list(alloc)?,
            consumers: List::new(alloc),
        })
    }
}
