//! What is stored of a stream, restored from what was kept of it.

ghost use Rattle.std.specs.Prelude.{◌≡◌, ◌<◌, ◌≤◌, ◌^◌, [], All, length, IfOk};
ghost use Rattle.dedup_window.specs.Mirrors.{AreApart};
ghost use Rattle.js_model.specs.Lists.{Ascends};
ghost use Rattle.js_model.specs.Streams.{seqs};
ghost use Rattle.message_store.specs.Stored.{IsSmall};
ghost use Rattle.stored_stream.specs.Restoring.{IsRestorable};
ghost use Rattle.stored_stream.specs.Stored.{IsSound, Rises};

use crate::indexed::IndexedMessages;
use crate::stored::{StoredStream, add_id};
use dedup_window::DedupWindow;
use js_base::{Moment, NoMemory};
use js_model::{Id, Message, Stream, copy_message, copy_stream_config};
use std::alloc::Global;

impl StoredStream {
    /// What was kept of a stream, without its consumers.
    pub fn restore(alloc: Global, kept: &Stream) -> Result<StoredStream, NoMemory>
        requires kept { IsRestorable kept.now }
        ensures value { IfOk result (λ s. s ≡ record kept.now { consumers = [] }) }
        ensures sound { IfOk result IsSound }
    {
        let window = kept.config.duplicate_window;
        Ok(StoredStream {
            incarnation: kept.incarnation,
            made: kept.made,
            config: copy_stream_config(alloc, &kept.config)?,
            messages: indexed(alloc, kept.messages.as_slice())?,
            ids: window_of(alloc, window, kept.ids.as_slice(), kept.moment)?,
            last: kept.last,
            moment: kept.moment,
        })
    }
}

/// The messages that were kept, with their indexes.
fn indexed(alloc: Global, kept: &[Message]) -> Result<IndexedMessages, NoMemory>
    requires ascends { Ascends 0 (seqs kept.now) }
    requires small { All IsSmall kept.now }
    requires few { length kept.now < 2 ^ 32 }
    ensures value { IfOk result (λ messages. messages ≡ kept.now) }
{
    let mut messages = IndexedMessages::new(alloc);
    for message in kept {
        messages.push(copy_message(message)?)?;
    }
    Ok(messages)
}

/// The window with the ids that were kept at a moment, in which an id counts for so many nanoseconds.
fn window_of(alloc: Global, window: u64, kept: &[Id], now: Moment) -> Result<DedupWindow, NoMemory>
    requires apart { AreApart kept.now }
    requires in_time { Rises (λ i. i.at) 0 now kept.now }
    requires few { length kept.now ≤ 2 ^ 20 }
    ensures value { IfOk result (λ ids. ids ≡ record { window = window; ids = kept.now }) }
{
    let mut ids = DedupWindow::new(alloc, window);
    for id in kept {
        add_id(&mut ids, &id.id, id.seq, id.at)?;
    }
    Ok(ids)
}
