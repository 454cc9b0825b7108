//! A place that is asked one thing after the other.

ghost use Rattle.std.specs.Prelude.{IsTrue};
ghost use Rattle.js_model.specs.Configs.{is_name};
ghost use Rattle.js_model.specs.Proper.{is_proper};
ghost use Rattle.place_engine.specs.Places.{IsTold};
ghost use Rattle.place_drive.specs.Asked.{IsAsked};

use crate::asked::{info, stream_info};
use js_base::{Blob, List, Moment, NoMemory, Out, Outs};
use js_model::{Delivered, Event, Listening, Reply, What};
use memory_place::MemoryPlace;
use place_engine::Place;
use std::alloc::Global;

/// 2023-11-14T22:13:20Z.
pub const START: u64 = 1_700_000_000_000_000_000;

/// A place in memory, at a moment, and what it has sent. Nobody listens for its push consumers.
#[derive(Drop)]
pub struct Driven {
    alloc: Global,
    place: MemoryPlace<()>,
    nobody: Listening,
    outs: Outs,
    now: Moment,
}

/// What is looked at in an answer.
#[derive(Clone, Copy)]
struct Told {
    /// The messages of the stream, in its information.
    messages: Option<u64>,
    /// The pending deliveries of the consumer, in its information.
    pending: Option<u64>,
}

impl Told {
    fn of(reply: &Reply) -> Told {
        let (messages, pending) = match reply {
            Reply::Info(told) => (Some(told.messages), None),
            Reply::ConsumerInfo(told) => (None, Some(told.info.ack_pending)),
            _ => (None, None),
        };
        Told { messages, pending }
    }
}

/// Lets go of a reply. The prover writes this out case by case wherever it stands, so it stands here alone.
fn let_go_of_reply(_reply: Reply) {}

/// Lets go of an event, for the same reason.
fn let_go_of_event(_event: Event) {}

impl Driven {
    /// A place that never had a stream, at [`START`].
    pub fn open(alloc: Global) -> Result<Driven, NoMemory> {
        let Some(now) = Moment::of(START) else {
            return Err(NoMemory);
        };
        match MemoryPlace::open(alloc, ()) {
            Ok(place) => Ok(Driven {
                alloc,
                place,
                nobody: List::new(alloc),
                outs: List::new(alloc),
                now,
            }),
            Err(_) => Err(NoMemory),
        }
    }

    /// Goes on so many nanoseconds later.
    pub fn wait(&mut self, nanos: u64) {
        self.now = self.now.plus(nanos);
    }

    /// Asks the place, and tells of its answer. Out of memory, time may have passed for its stream.
    fn ask(&mut self, what: What) -> Result<Told, NoMemory>
        requires asked { IsAsked what }
    {
        let event = Event {
            incarnation: self.place.incarnation(),
            what,
        };
        let told = self.step(&event);
        let_go_of_event(event);
        told
    }

    fn step(&mut self, event: &Event) -> Result<Told, NoMemory>
        requires proper { IsTrue (is_proper event.now) }
        requires told { IsTold event.now.what }
    {
        match self.place.step(event, self.now, &mut self.outs) {
            Ok(reply) => {
                let told = Told::of(&reply);
                let_go_of_reply(reply);
                Ok(told)
            }
            Err(_) => Err(NoMemory),
        }
    }

    /// Asks the place, whatever it answers.
    pub fn make(&mut self, what: What) -> Result<(), NoMemory>
        requires asked { IsAsked what }
    {
        self.ask(what)?;
        Ok(())
    }

    /// Makes one delivery. `None` if no consumer is ready.
    pub fn deliver(&mut self) -> Result<Option<Delivered>, NoMemory> {
        match self
            .place
            .deliver_one(self.now, &self.nobody, &mut self.outs)
        {
            Ok(Some(delivery)) => Ok(Some(delivery.what)),
            Ok(None) => Ok(None),
            Err(_) => Err(NoMemory),
        }
    }

    /// How many messages the stream has, if there is one.
    pub fn messages(&mut self) -> Result<Option<u64>, NoMemory> {
        Ok(self.ask(stream_info())?.messages)
    }

    /// How many deliveries of a consumer are pending, if there is such a consumer.
    pub fn pending(&mut self, name: &[u8]) -> Result<Option<u64>, NoMemory>
        requires name { IsTrue (is_name name.now) }
    {
        let what = info(self.alloc, name)?;
        Ok(self.ask(what)?.pending)
    }

    /// The last output that it has not forgotten.
    pub fn last(&self) -> Option<&Out> {
        self.outs.as_slice().last()
    }

    /// Forgets what the place has sent.
    pub fn forget(&mut self) {
        self.outs = List::new(self.alloc);
    }

    /// Lets the place go. Whoever has one calls this: a proof writes out all that is let go, once for each path on which it may be.
    pub fn close(self) {}
}
