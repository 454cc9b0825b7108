//! The desk of one caller, who owns the router, the catalog and the places.

ghost use Rattle.std.specs.Prelude.{◌≡◌, ◌≤◌, IfErr, IfOk, IsTrue, false, length};
ghost use Rattle.js_model.specs.Configs.{is_stream_subject};
ghost use Rattle.stream_config.specs.Defaults.{default_config};
ghost use Rattle.js_api.specs.Clients.{closed, new_client};
ghost use Rattle.js_api.specs.Leading.{Makes, leads_more, leads_nothing};
ghost use Rattle.js_api.specs.Making.{MakesStream};
ghost use Rattle.js_api.specs.Worlds.{SoloStep};
ghost use Rattle.desk_places.specs.Closing.{Closes};
ghost use Rattle.desk_places.specs.Opening.{FailsToOpen};
ghost use Rattle.js_desk.specs.Opening.{OpensDesk};
ghost use Rattle.js_desk.specs.Solo.{DeskMade, frames_left, row_in};
ghost use Rattle.js_desk.specs.Outgrown.{outgrown_more};
ghost use Rattle.js_desk.specs.Outlasting.{outlast_more, outlast_none};
ghost use Rattle.js_desk.specs.Kept.{kept_more, kept_none};

use crate::solo_ground::SoloGround;
use desk_calls::publish;
use desk_ground::{Caller, Ground};
use desk_messaging::{close, collect, options, settle, sub, tick, unsub};
use desk_places::{
    Closed, HubFault, Uncataloged, catalog_of, close_places, give_back, open_places,
};
use desk_streams::make_stream;
use js_api::{Desk, DeskFault};
use js_base::{ApiError, Moment, Name, Out};
use js_model::{Collected, Taken};
use place_engine::Place;
use std::alloc::Global;
use std::marker::Model;

/// A desk with its own router, catalog and places, one for each volume.
#[derive(Drop)]
pub struct SoloDesk<P: Place> {
    ground: SoloGround<P>,
    /// The client of its session.
    caller: Caller,
    /// Empty, with room for the volumes at the end.
    vols: Vec<P::Vol>,
}

impl<P: Place> Model for SoloDesk<P> {
    ghost use Rattle.std.specs.Prelude.{vec_capacity};
    ghost use Rattle.js_desk.specs.Solo.{Solo, solo, IsConsistent};

    ghost Value = { Solo P.Vol };

    ghost view = { λ desk. solo desk.ground desk.caller };

    ghost invariant = { λ desk. IsConsistent desk.ground desk.caller desk.vols.items (vec_capacity desk.vols) };
}

impl<P: Place> SoloDesk<P> {
    /// Opens a place on each volume, at most 32, in their order. No session was opened. An `Err` gives the volumes back, each as its place left it: of the
    /// places that were opened by then, nothing is left but their volumes.
    pub fn open(alloc: Global, vols: Vec<P::Vol>) -> Result<SoloDesk<P>, HubFault<P::Vol>>
        requires few { length vols.items ≤ 32 }
        ensures opened { IfOk result (OpensDesk P.seen P.vol P.holds P.reads P.left P.clock P.faults P.room_causes P.base P.opens P.refuses P.keeps_vol vols.items) }
        ensures client { IfOk result (λ desk. desk.client ≡ closed (new_client 0)) }
        ensures err { IfErr result (FailsToOpen P.seen P.vol P.holds P.reads P.left P.clock P.faults P.room_causes P.base P.opens P.refuses P.keeps_vol vols.items) }
    {
        let (places, vols) = open_places(alloc, vols)?;
        let mut vols = vols;
        let stop = match catalog_of(alloc, places.as_slice()) {
            Ok(catalog) => {
                return Ok(SoloDesk {
                    ground: SoloGround::of(alloc, catalog, places),
                    caller: Caller {
                        session: 0,
                        is_open: false,
                        told: false,
                    },
                    vols,
                });
            }
            Err(stop) => stop,
        };
        give_back(places, &mut vols);
        match stop {
            Uncataloged::Conflict { first, second } => Err(HubFault::Conflict {
                first,
                second,
                vols,
            }),
            Uncataloged::NoMemory => Err(HubFault::NoMemory { vols }),
        }
    }

    /// Makes the stream of this name and this one subject, with every default of JetStream, and answers why it was not made. A
    /// stream of this name that is there is left as it is. It needs no session. An `Err` leaves open whether the stream was made; in memory it is
    /// `NoMemory`.
    pub fn make_stream(
        &mut self,
        name: &Name,
        subject: &[u8],
        now: Moment,
    ) -> Result<Option<ApiError>, DeskFault>
        requires subject { IsTrue (is_stream_subject subject.now) }
        ensures made { Makes (λ old entries new. DeskMade P.keeps_vol P.holds P.left P.clock P.base P.room_causes.outgrows_log old entries new) (MakesStream name.now (default_config name.now subject.now) now result) self.old self.new }
        ensures client { self.new.client ≡ self.old.client }
    {
        make_stream(&mut self.ground, name, subject, now)
    }

    /// Brings all that was made at each place that is not stopped to its volume, in their order, and gives the volumes back, also after a failure. The places
    /// are those of the world at the closing, which is that of `self`.
    pub fn close_all(self) -> Closed<P::Vol>
        ensures closes { Closes P.seen P.vol P.holds P.reads P.left P.clock P.base P.keeps_vol self.vols self.scene.world.places result }
    {
        let SoloDesk {
            ground,
            caller: _,
            vols,
        } = self;
        let mut vols = vols;
        let failed = close_places(ground.into_places(), &mut vols);
        Closed { vols, failed }
    }
}

impl<P: Place> Desk for SoloDesk<P> {
    ghost client = { λ desk. desk.client };

    ghost made = { λ old entries new. DeskMade P.keeps_vol P.holds P.left P.clock P.base P.room_causes.outgrows_log old entries new };

    ghost left = { λ desk. frames_left desk };

    fn open(&mut self) -> Result<u64, DeskFault> {
        let session = self.ground.open()?;
        self.caller = Caller {
            session,
            is_open: true,
            told: false,
        };
        Ok(session)
    }

    fn options(&mut self, echo: bool, headers: bool, no_responders: bool) -> Result<(), DeskFault> {
        options(&mut self.ground, self.caller, echo, headers)?;
        self.caller.told = headers && no_responders;
        Ok(())
    }

    fn sub(&mut self, subject: &[u8], queue: Option<&[u8]>, sid: &[u8]) -> Result<(), DeskFault> {
        sub(&mut self.ground, self.caller, subject, queue, sid)
    }

    fn unsub(&mut self, sid: &[u8], max: Option<u64>) -> Result<(), DeskFault> {
        unsub(&mut self.ground, self.caller, sid, max)
    }

    fn publish(&mut self, message: &Out, now: Moment) -> Result<Taken, DeskFault> {
        publish(&mut self.ground, self.caller, message, now)
    }

    fn tick(&mut self, now: Moment) -> Result<(), DeskFault> {
        tick(&mut self.ground, now)
    }

    fn settle(&mut self, now: Moment) -> Result<bool, DeskFault> {
        settle(&mut self.ground, now)
    }

    fn collect(&mut self, max: usize) -> Result<Collected, DeskFault> {
        collect(&mut self.ground, self.caller, max)
    }

    fn close(&mut self) -> Result<(), DeskFault> {
        let closed = close(&mut self.ground, self.caller);
        self.caller.is_open = false;
        closed
    }

    ghost made_nothing = { λ desk. (leads_nothing SoloStep desk.scene, kept_none P.keeps_vol P.keeps_none desk.vols, outlast_none P.holds P.left P.clock P.base P.earlier (row_in desk), tt) };

    ghost made_more = { λ a b c first more h k. (leads_more SoloStep a.scene b.scene c.scene first more h.0 k.0, kept_more P.keeps_vol P.keeps_more a.vols b.vols c.vols h.1 k.1, outlast_more P.holds P.left P.clock P.base first more (row_in a) (row_in b) (row_in c) h.2 k.2, outgrown_more P.room_causes.outgrows_log first more h.3 k.3) };
}
