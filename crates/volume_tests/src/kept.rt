//! A place on a volume in memory that is asked one thing after the other, at one moment unless it is told that time passes.

ghost use Rattle.std.specs.Prelude.{IsTrue};
ghost use Rattle.js_model.specs.Proper.{is_proper};
ghost use Rattle.place_engine.specs.Places.{IsTold};
ghost use Rattle.place_drive.specs.Asked.{IsAsked};

use crate::deeds::{Deed, publish_with_id, tick, what_of};
use js_base::{List, Moment, NoMemory, Outs};
use js_model::{Event, Info, Listening, Reply, What};
use place_drive::{START, info, stream_info};
use place_engine::{OpenFault, Place, PlaceFault};
use std::alloc::Global;
use vol_disk::MemVol;
use volume_place::VolumePlace;

/// What is told of a stream: how many messages, their bytes, the first and the last sequence, and how many messages it may have.
#[derive(Clone, Copy, Debug, PartialEq, Eq)]
pub struct StreamTold {
    messages: u64,
    bytes: u64,
    first: u64,
    last: u64,
    limit: Option<u64>,
}

/// What is told of a place, or by one of its answers.
#[derive(Clone, Copy, Debug, PartialEq, Eq)]
pub struct Told {
    stream: Option<StreamTold>,
    consumer: Option<Info>,
    /// The sequence of the message that has the id already.
    id: Option<u64>,
    /// The number of a refusal.
    refusal: Option<u32>,
}

impl Told {
    /// How many messages its stream has, if there is one.
    pub fn messages(&self) -> Option<u64> {
        let stream = self.stream?;
        Some(stream.messages)
    }

    /// The last sequence of its stream, if there is one.
    pub fn last(&self) -> Option<u64> {
        let stream = self.stream?;
        Some(stream.last)
    }

    fn of(reply: &Reply) -> Told {
        let stream = match reply {
            Reply::Info(told) => Some(StreamTold {
                messages: told.messages,
                bytes: told.bytes,
                first: told.first_seq,
                last: told.last_seq,
                limit: told.config.max_msgs,
            }),
            _ => None,
        };
        let consumer = match reply {
            Reply::ConsumerInfo(told) => Some(told.info),
            _ => None,
        };
        let id = match reply {
            Reply::Duplicate(seq) => Some(*seq),
            _ => None,
        };
        let refusal = match reply {
            Reply::Refused(error) => Some(error.err_code),
            _ => None,
        };
        Told {
            stream,
            consumer,
            id,
            refusal,
        }
    }
}

/// Lets go of a reply. The prover writes this out case by case wherever it stands, so it stands here alone.
fn let_go_of_reply(_reply: Reply) {}

/// Lets go of an event, for the same reason.
fn let_go_of_event(_event: Event) {}

/// Why something was not done.
#[derive(Clone, Copy, Debug, PartialEq, Eq)]
pub enum Undone {
    Memory,
    Place(PlaceFault),
}

impl From<NoMemory> for Undone {
    fn from(_refused: NoMemory) -> Undone {
        Undone::Memory
    }
}

impl From<PlaceFault> for Undone {
    fn from(fault: PlaceFault) -> Undone {
        Undone::Place(fault)
    }
}

/// The place. Nobody listens for its push consumers.
#[derive(Drop)]
pub struct Kept {
    alloc: Global,
    place: VolumePlace<MemVol>,
    nobody: Listening,
    outs: Outs,
    now: Moment,
}

impl Kept {
    /// The place of a volume, at [`START`].
    pub fn open(alloc: Global, vol: MemVol) -> Result<Kept, (OpenFault, MemVol)> {
        let Some(now) = Moment::of(START) else {
            return Err((OpenFault::NoMemory, vol));
        };
        match VolumePlace::open(alloc, vol) {
            Ok(place) => Ok(Kept {
                alloc,
                place,
                nobody: List::new(alloc),
                outs: List::new(alloc),
                now,
            }),
            Err(refused) => Err(refused),
        }
    }

    fn step(&mut self, event: &Event) -> Result<Told, PlaceFault>
        requires proper { IsTrue (is_proper event.now) }
        requires told { IsTold event.now.what }
    {
        self.place.prepare(&event.what)?;
        match self.place.step(event, self.now, &mut self.outs) {
            Ok(reply) => {
                let told = Told::of(&reply);
                let_go_of_reply(reply);
                Ok(told)
            }
            Err(fault) => Err(fault),
        }
    }

    /// Asks the place, and tells of its answer.
    fn ask(&mut self, what: What) -> Result<Told, PlaceFault>
        requires asked { IsAsked what }
    {
        let event = Event {
            incarnation: self.place.incarnation(),
            what,
        };
        let told = self.step(&event);
        let_go_of_event(event);
        told
    }

    /// Does it, and tells the number of its refusal, if it was refused. What was sent before is forgotten.
    pub fn try_to(&mut self, deed: Deed) -> Result<Option<u32>, Undone> {
        self.outs = List::new(self.alloc);
        let what = what_of(self.alloc, deed)?;
        let told = self.ask(what)?;
        if deed == Deed::Deliver {
            self.place
                .deliver_one(self.now, &self.nobody, &mut self.outs)?;
        }
        Ok(told.refusal)
    }

    /// Does it, whether or not it is refused.
    pub fn act(&mut self, deed: Deed) -> Result<(), Undone> {
        self.try_to(deed)?;
        Ok(())
    }

    /// Lets so many nanoseconds pass for it.
    pub fn tick(&mut self, nanos: u64) -> Result<(), PlaceFault> {
        self.now = self.now.plus(nanos);
        self.ask(tick())?;
        Ok(())
    }

    /// Brings all that was done to the volume.
    pub fn flush(&mut self) -> Result<(), PlaceFault> {
        self.place.flush()
    }

    /// What is told of the place. It may publish the message with the id for that.
    pub fn told(&mut self) -> Result<Told, Undone> {
        let stream = self.ask(stream_info())?.stream;
        let what = info(self.alloc, b"W")?;
        let consumer = self.ask(what)?.consumer;
        let what = publish_with_id(self.alloc)?;
        let id = self.ask(what)?.id;
        Ok(Told {
            stream,
            consumer,
            id,
            refusal: None,
        })
    }

    /// How many outputs the last deed sent.
    pub fn sent(&self) -> usize {
        self.outs.len()
    }

    /// Ends the place, and gives its volume back, as it is.
    pub fn into_vol(self) -> MemVol {
        self.place.into_vol()
    }
}
