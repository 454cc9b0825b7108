//! The steps of a place's run.

use crate::event::Event;
use crate::reply::Reply;
use js_base::{Blob, List, Moment, Outs};

/// What a delivery was.
#[derive(Clone, Copy, Debug, PartialEq, Eq)]
pub enum Delivered {
    /// A message was sent: its sequence, how often it was by now, and its consumer sequence.
    Sent { seq: u64, count: u64, dseq: u64 },
    /// The first pull was too small for a message.
    TooSmall,
    /// There was nothing for a pull that does not wait.
    Emptied,
}

/// A delivery, and to which consumer it was made.
#[derive(Drop, Debug, PartialEq, Eq)]
pub struct Delivery {
    pub consumer: Blob,
    pub what: Delivered,
}

/// The names of the push consumers to which somebody listens.
pub type Listening = List<Blob>;

/// What a broken step was to do.
#[derive(Drop, Debug)]
pub enum Call {
    Step(Event),
    Deliver(Listening, Delivery),
}

/// One step of a place, by the seat whose turn it was.
#[derive(Drop, Debug)]
pub enum PlaceEntry {
    /// An event was made. An unsaid one is not answered.
    Step {
        seat: u64,
        event: Event,
        moment: Moment,
        reply: Reply,
        outs: Outs,
        unsaid: bool,
    },
    /// A delivery was made.
    Deliver {
        seat: u64,
        moment: Moment,
        listening: Listening,
        delivery: Delivery,
        outs: Outs,
    },
    /// The store failed in an event or a delivery. Nobody is answered, and the place does no more.
    Broken {
        seat: u64,
        moment: Moment,
        call: Call,
    },
}
