//! What waits for a session.

ghost use Rattle.std.specs.Prelude.{◌≡◌, ◌+◌, ◌<◌, ◌≤◌, ◌^◌, [], ◌++◌, IfOk, OnOk, OnErr, length, take, drop, vec_len};
ghost use Rattle.std.specs.Vec.{vec_capacity};
ghost use Rattle.js_model.specs.Router.{Queue, bytes_together, with_frame, collected, without_collected};
ghost use Rattle.route_core.specs.Queues.{gathered};

use crate::measured_frame::MeasuredFrame;
use crate::parcel::Parcel;
use js_base::{Frame, List, NoMemory};
use js_model::Collected;
use std::alloc::Global;
use std::collections::LinkedList;
use std::marker::Model;

/// How many bytes may wait for a session: 16 MiB.
const MOST: u64 = 16_777_216;

/// The frames that wait for a session, in their order; or a mark, if they would have been too long together.
#[derive(Drop)]
pub(crate) struct Waiting {
    /// None is kept of a marked session.
    frames: LinkedList<MeasuredFrame>,
    /// How many bytes these frames have together.
    length: u64,
    /// How many bytes they would have had with the frame that was too much.
    mark: Option<u64>,
}

impl Model for Waiting {
    ghost use Rattle.js_model.specs.Router.{Waiting as Machine};
    ghost use Rattle.route_core.specs.Queues.{waiting_of, IsWithin};

    ghost Value = { Machine };

    ghost view = { λ waiting. waiting_of waiting.mark waiting.frames };

    ghost invariant = { λ waiting. IsWithin waiting.frames waiting.length };
}

impl Waiting {
    /// Nothing waits. It takes no memory.
    pub(crate) fn new(alloc: Global) -> Waiting
        ensures empty { result ≡ Queue [] }
    {
        Waiting {
            frames: LinkedList::new(alloc),
            length: 0,
            mark: None,
        }
    }

    /// Adds a frame at the end, or a mark if the frames would then have more than 16 MiB. A marked session's frame is dropped. It takes no
    /// memory.
    pub(crate) fn put(&mut self, parcel: Parcel)
        ensures value { self.new ≡ with_frame parcel self.old }
    {
        if self.mark.is_some() {
            return;
        }
        let together = self.length + parcel.len();
        if together > MOST {
            self.frames.clear();
            self.length = 0;
            self.mark = Some(together);
        } else {
            parcel.append_to(&mut self.frames);
            self.length = together;
        }
    }

    /// Takes the first frames that have at most `max` bytes together, but at least one if any waits, and tells whether more wait. A marked
    /// session is slow, and stays marked.
    pub(crate) fn collect(&mut self, max: usize) -> Result<Collected, NoMemory>
        ensures told { IfOk result (λ got. got ≡ gathered max self.old) }
        ensures left { OnOk result (self.new ≡ without_collected max self.old) }
        ensures err { OnErr result (self.new ≡ self.old) }
    {
        if let Some(length) = self.mark {
            return Ok(Collected::Slow { length });
        }
        let count = reach(&self.frames, max);
        let mut list = Vec::with_capacity(*self.frames.allocator(), count)?;
        self.length -= take_front(&mut self.frames, count, &mut list);
        Ok(Collected::Frames {
            list: List::from_vec(list),
            more: !self.frames.is_empty(),
        })
    }
}

/// How many frames a collect takes. It looks at one at most that it does not take.
fn reach(frames: &LinkedList<MeasuredFrame>, max: usize) -> usize
    ensures value { result ≡ length (collected max frames.now) }
{
    let mut room = max as u64;
    let mut count = 0;
    for frame in frames.iter() {
        let len = frame.len();
        if count > 0 && len > room {
            return count;
        }
        room = room.saturating_sub(len);
        count += 1;
    }
    count
}

/// Moves the first `count` frames, and answers how many bytes they have together.
fn take_front(frames: &mut LinkedList<MeasuredFrame>, count: usize, into: &mut Vec<Frame>) -> u64
    requires within { count ≤ length frames.old }
    requires room { vec_len into.old + count ≤ vec_capacity into.old }
    requires short { bytes_together frames.old < 2 ^ 64 }
    ensures taken { into.new.items ≡ into.old.items ++ take count frames.old }
    ensures left { frames.new ≡ drop count frames.old }
    ensures length { result ≡ bytes_together (take count frames.old) }
{
    let mut length = 0;
    for _at in 0..count {
        let Some(frame) = frames.pop_front() else {
            unreachable!();
        };
        length += frame.len();
        into.push_reserved(frame.into_frame());
    }
    length
}
