//! A frame on its way to a session.

ghost use Rattle.std.specs.Prelude.{◌≡◌, ◌<◌, ◌^◌, [], ◌∷◌, ◌++◌, IfOk, length};
ghost use Rattle.js_base.specs.Framing.{frame as bytes_of};

use crate::measured_frame::MeasuredFrame;
use js_base::NoMemory;
use std::alloc::Global;
use std::collections::LinkedList;
use std::marker::Model;

/// A frame in a list of its own, so that a queue takes it without taking memory.
#[derive(Drop)]
pub(crate) struct Parcel {
    frames: LinkedList<MeasuredFrame>,
    length: u64,
}

impl Model for Parcel {
    ghost use Rattle.js_base.specs.declared.frame.Frame.{Frame};
    ghost use Rattle.route_core.specs.Queues.{first_frame, IsParcel};

    ghost Value = { Frame };

    ghost view = { λ parcel. first_frame parcel.frames };

    ghost invariant = { λ parcel. IsParcel parcel.frames parcel.length };
}

impl Parcel {
    /// The frame as a parcel.
    pub(crate) fn of(alloc: Global, frame: MeasuredFrame) -> Result<Parcel, NoMemory>
        ensures value { IfOk result (λ parcel. parcel ≡ frame) }
    {
        let length = frame.len();
        let mut frames = LinkedList::new(alloc);
        match frames.push_back(frame) {
            Ok(()) => Ok(Parcel { frames, length }),
            Err(_) => Err(NoMemory),
        }
    }

    /// How many bytes the frame has.
    pub(crate) fn len(&self) -> u64
        ensures value { result ≡ length (bytes_of self.now) }
        ensures short { result < 2 ^ 63 }
    {
        self.length
    }

    /// Adds the frame at the end of a queue. It takes no memory.
    pub(crate) fn append_to(mut self, queue: &mut LinkedList<MeasuredFrame>)
        requires room { length queue.old < 2 ^ 62 }
        ensures added { queue.new ≡ queue.old ++ self ∷ [] }
    {
        let Ok(()) = queue.append(&mut self.frames) else {
            unreachable!();
        };
    }
}
