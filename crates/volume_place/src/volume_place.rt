//! A place on a volume.

ghost use Rattle.std.specs.Prelude.{◌≡◌, Decides, Err, IfErr, IfOk, IfSome, IsTrue, MatchBool, MatchResult, None, Ok};
ghost use Rattle.js_base.specs.Causes.{Rose};
ghost use Rattle.js_model.specs.Events.{kept_incarnation};
ghost use Rattle.js_model.specs.Firm.{IsFirmStep};
ghost use Rattle.js_model.specs.Proper.{is_proper, is_proper_what};
ghost use Rattle.memory_place.specs.Answers.{LeftBy, MayDeliver};
ghost use Rattle.place_engine.specs.Delivering.{Delivers, batch_with};
ghost use Rattle.place_engine.specs.Flushing.{Flushes};
ghost use Rattle.place_engine.specs.Opening.{HasNoRoom, IsOpened, IsUnopened};
ghost use Rattle.place_engine.specs.Places.{IsTold};
ghost use Rattle.place_engine.specs.Preparing.{Prepares};
ghost use Rattle.place_engine.specs.Shown.{IsShown};
ghost use Rattle.place_engine.specs.Stepping.{Elapses, IsKept, Steps, batch_of};
ghost use Rattle.timers.specs.Bounds.{IsTimerBound};
ghost use Rattle.timers.specs.Timers.{timers};
ghost use Rattle.snapshot_bound.specs.Bounds.{capped};
ghost use Rattle.stream_store.specs.Clearing.{AreCleared, IsOtherClosed};
ghost use Rattle.stream_store.specs.Rooms.{OutgrowsLogs};
ghost use Rattle.volume_place.specs.Bringing.{Brings, Concludes, Confirms};
ghost use Rattle.volume_place.specs.Growing.{IsGrowth, bound_after};
ghost use Rattle.volume_place.specs.Images.{Keeps, base, clock, holds, left, reads};
ghost use Rattle.volume_place.specs.Leaving.{IsLeftIfToldWorn, IsLeftIfWorn, LogGoes};
ghost use Rattle.volume_place.specs.Making.{Answers, KeepsStore, RecordsDelivery, RecordsEvent};
ghost use Rattle.volume_place.specs.Opening.{fault_of, opens, refuses};
ghost use Rattle.volume_place.specs.Preparing.{KeepsButRoom, KeepsImages, MakesRoom};
ghost use Rattle.volume_place.specs.Seeing.{causes_of, outgrows_log, seen_of};
ghost use Rattle.volume_place.specs.Since.{KeepsTail, since_by, tail_timers};
ghost use Rattle.volume_place.specs.Tail.{SharesDelivery, SharesStep, is_small};

use crate::asking::{Growth, bound_with, growth_of};
use crate::committing::commit;
use crate::firm::{Answered, is_firm};
use crate::outputs::{cut_to, is_refused};
use crate::preparing::{keep_reserve, make_room};
use crate::room::{answer_in, count_with, has_room};
use crate::since::{due, is_overdue, is_urgent, since_with};
use crate::tail::Tail;
use js_base::{Blob, Moment, NoMemory, Outs};
use js_model::{Delivery, Event, Listening, Reply, What};
use memory_place::Slot;
use place_engine::{Left, OpenFault, Place, PlaceFault, Push};
use place_records::Made;
use snapshot_bound::fixed_of;
use std::alloc::Global;
use std::marker::Model;
use stream_store::{CommitFault, RoomFault, Store};
use timer_bounds::earlier;
use vol_disk::Vol;

/// No log begins with more bytes.
const GREATEST: u64 = (1 << 31) - (1 << 16);

/// A place whose stream is kept on a volume. A step that is firm is committed before it is answered, together with all that waits. What any other step and a
/// delivery change waits, until there are 1,024 records or 1 MiB of them, or until a tick a second after the first of it was made. A commit that would make the
/// log long, or that has no room in it, leaves it for the next one, which begins with all that lasts. In memory it keeps the stream, and the records that wait.
///
/// Both logs are long enough for a next one that begins with all that may last, and each message that waits has room in the file where it goes. So a commit finds
/// its room in any case; and what would make the place come to more is refused where no room was made for it before.
#[derive(Drop)]
pub struct VolumePlace<V: Vol> {
    alloc: Global,
    slot: Slot,
    store: Store,
    vol: V,
    /// The records that wait for a commit.
    tail: Tail,
    /// The records of the last event or delivery that are not there yet, which wait behind those.
    made: Made,
    /// The moment at which the first of all these records was made that tells of more than time.
    since: Option<Moment>,
    /// How many messages stood there when the place was opened, or were stored since.
    stored: u64,
    /// The volume's count of faults as it stopped the place, if it did.
    stopped: Option<u64>,
    /// Its texts take no more bytes in the first batch of a next log: those of its configurations, and of what is picked for its consumers.
    fixed: u64,
}

impl<V: Vol> Model for VolumePlace<V> {
    ghost use Rattle.place_engine.specs.Following.{followed};
    ghost use Rattle.place_records.specs.Records.{effects_in};
    ghost use Rattle.volume_place.specs.Contents.{Contents};
    ghost use Rattle.volume_place.specs.Reserve.{HasReserve};
    ghost use Rattle.volume_place.specs.Rooms.{MayStore};
    ghost use Rattle.volume_place.specs.Since.{IsDated};
    ghost use Rattle.volume_place.specs.Sound.{IsSoundPlace};

    ghost Value = { Contents V };

    ghost view = { λ place. record {
      state = place.slot;
      store = place.store;
      vol = place.vol;
      waiting = followed place.tail (effects_in place.made);
      since = place.since;
      stored = place.stored;
      stopped = place.stopped;
      fixed = place.fixed;
    } };

    ghost invariant = { λ place.
        IsSoundPlace V.told (V.disk place.vol) place.store (followed place.tail (effects_in place.made)) place.stopped place.slot
        × MayStore place.stopped place.store.blocks (followed place.tail (effects_in place.made)) place.stored
        × IsDated (followed place.tail (effects_in place.made)) place.since
        × HasReserve V.told (V.disk place.vol) place.store (followed place.tail (effects_in place.made)) place.stopped place.fixed place.slot };
}

/// Why a store was not opened, as a place tells it.
fn fault_of(fault: stream_store::OpenFault) -> OpenFault
    ensures value { result ≡ fault_of fault }
{
    match fault {
        stream_store::OpenFault::Fault => OpenFault::Fault,
        stream_store::OpenFault::Damaged { file, at } => OpenFault::Damaged { file, at },
        stream_store::OpenFault::UnknownVersion(version) => {
            OpenFault::UnknownVersion(u64::from(version))
        }
        stream_store::OpenFault::NoRoom => OpenFault::NoRoom,
        stream_store::OpenFault::NoMemory => OpenFault::NoMemory,
    }
}

/// Tells whoever runs the server that the stream is stopped, if there is one.
fn tell_stopped<V: Vol>(slot: &Slot, vol: &V) {
    if let Some(name) = slot.name() {
        vol.tell_stopped(name.as_slice());
    }
}

impl<V: Vol> VolumePlace<V> {
    /// Makes an event at a moment in memory, answers it, adds what it sends to the outputs, lets its records wait, and tells whether it is firm. An `Err` says
    /// what is left.
    fn answer(&mut self, event: &Event, now: Moment, outs: &mut Outs) -> Result<Answered, Left>
        requires told { IsTold event.now.what }
        requires proper { IsTrue (is_proper event.now) }
        requires kept { event.now.incarnation ≡ kept_incarnation self.old.state }
        requires going { self.old.stopped ≡ None }
        ensures answers { IfOk result (λ said. Answers event.now.what now said.reply outs.old outs.new self.old self.new) }
        ensures shown { IfOk result (λ said. IsShown said.reply) }
        ensures firm { IfOk result (λ said. IfSome said.firm (λ firm. Decides firm (IsFirmStep self.old.state event.now.what said.reply self.new.state))) }
        ensures err { IfErr result (λ left. LeftBy left self.old.state now outs.old outs.new self.new.state) }
        ensures recorded { IfOk result (λ said. RecordsEvent (Ok said.reply) event.now.what now self.old self.new) }
        ensures err_recorded { IfErr result (λ left. RecordsEvent (Err left) event.now.what now self.old self.new) }
        ensures since { self.new.since ≡ since_by now self.old.since self.new.waiting }
        ensures rests { KeepsStore self.old self.new }
    {
        // that the moment is below 2^62 is what the proof takes from this call
        let _ = now.as_nanos();
        let ids = self.slot.id_count();
        let Ok(_) = self.tail.take(&mut self.made) else {
            return Err(Left::Nothing);
        };
        let Ok(growth) = growth_of(self.alloc, &self.slot, &event.what) else {
            return Err(Left::Nothing);
        };
        let waiting = self.tail.records();
        let Ok(room) = has_room(
            &self.slot,
            self.fixed,
            &mut self.store,
            waiting,
            &event.what,
            growth,
        ) else {
            return Err(Left::Nothing);
        };
        let said = answer_in(&mut self.slot, room, &event.what, now, outs, &mut self.made);
        self.since = since_with(self.since, &self.made, now);
        let reply = said?;
        self.stored = count_with(self.stored, &self.made);
        self.fixed = growth.raise(self.fixed, room);
        let firm = match self.tail.take(&mut self.made) {
            Ok(more) => {
                let changes = more || self.slot.id_count() < ids;
                Some(is_firm(&event.what, &reply, changes))
            }
            Err(NoMemory) => None,
        };
        Ok(Answered { reply, firm })
    }

    /// Makes one delivery at a moment in memory, adds what it sends to the outputs, and lets its records wait. An `Err` says what is left.
    fn deliver(
        &mut self,
        now: Moment,
        listening: &Listening,
        outs: &mut Outs,
    ) -> Result<Option<Delivery>, Left>
        requires going { self.old.stopped ≡ None }
        ensures delivers { MayDeliver result self.old.state now listening.now outs.old outs.new self.new.state }
        ensures recorded { RecordsDelivery result now self.old self.new }
        ensures since { self.new.since ≡ since_by now self.old.since self.new.waiting }
        ensures rests { KeepsStore self.old self.new }
    {
        let _ = now.as_nanos();
        // that the incarnation is at most 2^62 is what the proof takes from this call
        let _ = self.slot.incarnation();
        let Ok(_) = self.tail.take(&mut self.made) else {
            return Err(Left::Nothing);
        };
        let sent = self.slot.deliver_one(now, listening, outs, &mut self.made);
        self.since = since_with(self.since, &self.made, now);
        sent
    }

    /// Commits all that waits, if anything does, in the next log if it would make this one long, or finds no room in it. A fault stops the place. `Worn` and
    /// `NoMemory` leave all as it was.
    #[tactic(none)]
    fn bring(&mut self) -> Result<(), CommitFault>
        requires going { self.old.stopped ≡ None }
        ensures brings { Brings result (seen_of V.told V.disk V.faults V.refusals self.old) (seen_of V.told V.disk V.faults V.refusals self.new) }
        ensures log { MatchResult result (λ done. LogGoes self.old.waiting self.old self.new) (λ fault. IsLeftIfWorn fault self.new) }
        ensures tail { KeepsTail self.old self.new }
        ensures time { Elapses holds (seen_of V.told V.disk V.faults V.refusals self.old) (seen_of V.told V.disk V.faults V.refusals self.new) }
    {
        let Ok(_) = self.tail.take(&mut self.made) else {
            return Err(CommitFault::NoMemory);
        };
        if self.tail.records().is_empty() {
            return Ok(());
        }
        let bound = bound_with(&self.slot, self.fixed);
        match commit(
            self.alloc,
            &self.slot,
            &mut self.store,
            &mut self.vol,
            &mut self.tail,
            bound,
        ) {
            Ok(()) => {
                self.tail.clear();
                self.since = None;
                Ok(())
            }
            Err(CommitFault::NoMemory) => Err(CommitFault::NoMemory),
            Err(CommitFault::Worn) => Err(CommitFault::Worn),
            Err(CommitFault::Fault) => {
                self.stopped = Some(self.vol.faults());
                Err(CommitFault::Fault)
            }
        }
    }

    /// Whether all that waits may wait on: it is little.
    fn may_wait(&mut self) -> Result<bool, NoMemory>
        ensures same { self.new ≡ self.old }
        ensures waits { IfOk result (λ waits. waits ≡ is_small self.old.waiting) }
    {
        self.tail.take(&mut self.made)?;
        self.tail.is_small(self.alloc)
    }

    /// Commits all that waits once something was made that is urgent, or if it may not wait on. If it is not known whether that is urgent, it is `NoMemory`,
    /// which leaves all as it was.
    fn conclude(&mut self, urgent: Option<bool>) -> Result<(), CommitFault>
        requires going { self.old.stopped ≡ None }
        ensures concludes { Concludes urgent result (seen_of V.told V.disk V.faults V.refusals self.old) (seen_of V.told V.disk V.faults V.refusals self.new) }
        ensures log { MatchResult result (λ done. LogGoes self.old.waiting self.old self.new) (λ fault. IsLeftIfWorn fault self.new) }
        ensures tail { KeepsTail self.old self.new }
        ensures time { Elapses holds (seen_of V.told V.disk V.faults V.refusals self.old) (seen_of V.told V.disk V.faults V.refusals self.new) }
    {
        let Some(urgent) = urgent else {
            return Err(CommitFault::NoMemory);
        };
        if !urgent && self.may_wait()? {
            return Ok(());
        }
        self.bring()
    }

    /// The same, of something that was refused or not; before it there were so many outputs, to which they are cut back if the place is stopped.
    fn confirm(
        &mut self,
        urgent: Option<bool>,
        refused: bool,
        count: usize,
        outs: &mut Outs,
    ) -> Result<(), PlaceFault>
        requires going { self.old.stopped ≡ None }
        ensures confirms { Confirms urgent refused count result (seen_of V.told V.disk V.faults V.refusals self.old) (seen_of V.told V.disk V.faults V.refusals self.new) outs.old outs.new }
        ensures log { MatchResult result (λ done. LogGoes self.old.waiting self.old self.new) (λ fault. IsLeftIfToldWorn fault self.new) }
        ensures tail { KeepsTail self.old self.new }
        ensures time { Elapses holds (seen_of V.told V.disk V.faults V.refusals self.old) (seen_of V.told V.disk V.faults V.refusals self.new) }
    {
        match self.conclude(urgent) {
            Ok(()) => Ok(()),
            Err(CommitFault::NoMemory) => Err(PlaceFault::NoMemory(Left::Unsaid { refused })),
            Err(CommitFault::Worn) => Err(PlaceFault::Worn { refused }),
            Err(CommitFault::Fault) => {
                cut_to(self.alloc, count, outs);
                tell_stopped(&self.slot, &self.vol);
                Err(PlaceFault::StoreFault)
            }
        }
    }

    /// What the place comes to at most with what is asked, which raises it by no more than that. If the logs are too short for it, the texts are measured anew
    /// first, since some that count may be gone; but not for a publish, unless the place would come to more than a log can begin with.
    fn bound_after(&mut self, what: &What, growth: Growth) -> Result<u64, NoMemory>
        requires going { self.old.stopped ≡ None }
        requires growth { IsGrowth self.old.state what.now growth }
        ensures same { self.new ≡ record self.old { fixed = self.new.fixed } }
        ensures count { IfOk result (λ count. count ≡ capped (bound_after self.new.fixed self.old.state what.now)) }
        ensures exact { IfOk result (λ count. OutgrowsLogs count → outgrows_log self.old.state what.now) }
    {
        let count = bound_with(&self.slot, self.fixed).saturating_add(growth.whole());
        if self.store.is_reserved(count) {
            return Ok(count);
        }
        if count <= GREATEST && matches!(what, What::Publish(_)) {
            return Ok(count);
        }
        let durable = self.slot.durable()?;
        self.fixed = fixed_of(self.alloc, &durable)?;
        Ok(bound_with(&self.slot, self.fixed).saturating_add(growth.whole()))
    }

    /// Makes room for a place that comes to so much at most with what is asked, if there is some, and for its message. Nothing else changes. A fault stops the place.
    fn make_room(&mut self, what: &What, count: u64) -> Result<(), RoomFault>
        requires going { self.old.stopped ≡ None }
        requires proper { IsTrue (is_proper_what what.now) }
        requires count { count ≡ capped (bound_after self.old.fixed self.old.state what.now) }
        requires exact { OutgrowsLogs count → outgrows_log self.old.state what.now }
        ensures makes { MakesRoom result what.now (seen_of V.told V.disk V.faults V.refusals self.old) (seen_of V.told V.disk V.faults V.refusals self.new) }
        ensures images { KeepsImages holds (seen_of V.told V.disk V.faults V.refusals self.old) (seen_of V.told V.disk V.faults V.refusals self.new) }
        ensures same { KeepsButRoom self.old self.new }
        ensures time { Elapses holds (seen_of V.told V.disk V.faults V.refusals self.old) (seen_of V.told V.disk V.faults V.refusals self.new) }
    {
        self.tail.take(&mut self.made)?;
        let waiting = self.tail.records();
        match make_room(&mut self.store, &mut self.vol, waiting, what, count) {
            Ok(()) => Ok(()),
            Err(RoomFault::NoMemory) => Err(RoomFault::NoMemory),
            Err(RoomFault::Fault) => {
                self.stopped = Some(self.vol.faults());
                Err(RoomFault::Fault)
            }
        }
    }
}

impl<V: Vol> Place for VolumePlace<V> {
    ghost use Rattle.std.specs.Prelude.{refl};
    ghost use Rattle.volume_place.specs.Laws.{all_lasts, earlier_left, keeps_later, keeps_more, keeps_none, only_held, opens_read, refuses_read};

    type Vol = V;

    ghost seen = { seen_of V.told V.disk V.faults V.refusals };

    ghost holds = { holds };

    ghost vol = { λ place. place.vol };

    ghost keeps_vol = { Keeps V.disk V.faults V.refusals };

    ghost reads = { reads V.told V.disk };

    ghost left = { left V.told V.disk };

    ghost clock = { clock V.disk };

    ghost faults = { V.faults };

    ghost room_causes = { causes_of V.refusals };

    ghost base = { base V.told V.disk };

    ghost opens = { opens V.told V.disk };

    ghost refuses = { refuses V.told V.disk };

    /// What the volume holds is read, and a stream restored to it. If the volume never had a place, a log is begun on it that says so. The log that is not current
    /// is cleared, and files that are no blocks, and in which a crash left bytes, are cut to nothing. If there is a stream, room is made in both logs for a next one
    /// that begins with it, where they are not long enough.
    fn open(alloc: Global, volume: V) -> Result<VolumePlace<V>, (OpenFault, V)>
        ensures opened { IfOk result (λ place. IsOpened holds (reads V.told V.disk) (left V.told V.disk) (clock V.disk) (opens V.told V.disk) volume (seen_of V.told V.disk V.faults V.refusals place)) }
        ensures vol { IfOk result (λ place. Keeps V.disk V.faults V.refusals volume place.vol) }
        ensures refused { IfErr result (λ stop. refuses V.told V.disk volume stop.0) }
        ensures cause { IfErr result (λ stop. stop.0 ≡ OpenFault.Fault → Rose (V.faults volume) (V.faults stop.1)) }
        ensures no_room { IfErr result (λ stop. stop.0 ≡ OpenFault.NoRoom → HasNoRoom (causes_of V.refusals) (opens V.told V.disk) volume stop.1) }
        ensures unopened { IfErr result (λ stop. IsUnopened holds (reads V.told V.disk) (left V.told V.disk) (clock V.disk) (opens V.told V.disk) volume stop.1) }
        ensures given_back { IfErr result (λ stop. Keeps V.disk V.faults V.refusals volume stop.1) }
        ensures cleared { V.told → IfOk result (λ place. AreCleared place.store.blocks (V.disk volume) (V.disk place.vol)) }
        ensures closed { V.told → IfOk result (λ place. IsOtherClosed place.store.log (V.disk place.vol)) }
    {
        let mut vol = volume;
        let (mut store, durable) = match Store::open(alloc, &mut vol) {
            Ok(opened) => opened,
            Err(fault) => return Err((fault_of(fault), vol)),
        };
        match store.clear(&mut vol) {
            Ok(()) => {}
            Err(fault) => return Err((fault_of(fault), vol)),
        }
        let fixed = match keep_reserve(alloc, &mut store, &mut vol, &durable) {
            Ok(fixed) => fixed,
            Err(fault) => return Err((fault, vol)),
        };
        let Ok(slot) = Slot::restore(alloc, durable) else {
            return Err((OpenFault::NoMemory, vol));
        };
        let stored = slot.messages();
        Ok(VolumePlace {
            alloc,
            slot,
            store,
            vol,
            tail: Tail::new(alloc),
            made: Made::new(alloc),
            since: None,
            stored,
            stopped: None,
            fixed,
        })
    }

    fn incarnation(&self) -> u64 {
        self.slot.incarnation()
    }

    fn name(&self) -> Option<&Blob> {
        self.slot.name()
    }

    fn subjects(&self) -> &[Blob] {
        self.slot.subjects()
    }

    fn messages(&self) -> u64 {
        self.slot.messages()
    }

    fn stopped(&self) -> Option<u64> {
        self.stopped
    }

    fn push(&self, at: usize) -> Option<Push<'_>> {
        self.slot.push(at)
    }

    fn ready(&self, now: Moment, listening: &Listening) -> bool {
        self.slot.ready(now, listening)
    }

    /// It is not later than the moment from which on a tick commits what waits, if something does.
    fn next_timer(&self) -> Option<Moment>
        ensures bound { IsTimerBound (timers self.now.state) result }
        ensures tail { IsTimerBound (tail_timers self.now.since) result }
    {
        earlier(self.slot.next_timer(), due(self.since))
    }

    /// The volume is called only where that which is known of its files does not do.
    fn prepare(&mut self, what: &What) -> Result<(), PlaceFault>
        requires proper { IsTrue (is_proper_what what.now) }
        ensures prepares { Prepares holds outgrows_log result what.now (seen_of V.told V.disk V.faults V.refusals self.old) (seen_of V.told V.disk V.faults V.refusals self.new) }
        ensures vol { Keeps V.disk V.faults V.refusals self.old.vol self.new.vol }
        ensures same { KeepsButRoom self.old self.new }
    {
        if let Some(count) = self.stopped {
            return Err(PlaceFault::Stopped(count));
        }
        let Ok(growth) = growth_of(self.alloc, &self.slot, what) else {
            return Err(PlaceFault::NoMemory(Left::Nothing));
        };
        if growth.whole() == 0 {
            return Ok(());
        }
        let Ok(count) = self.bound_after(what, growth) else {
            return Err(PlaceFault::NoMemory(Left::Nothing));
        };
        match self.make_room(what, count) {
            Ok(()) => Ok(()),
            Err(RoomFault::NoMemory) => Err(PlaceFault::NoMemory(Left::Nothing)),
            Err(RoomFault::Fault) => {
                tell_stopped(&self.slot, &self.vol);
                Err(PlaceFault::StoreFault)
            }
        }
    }

    /// It is committed with all that waits if it is firm, if it is a tick a second or more after the first of that was made, or if that may not wait on.
    fn step(&mut self, event: &Event, now: Moment, outs: &mut Outs) -> Result<Reply, PlaceFault>
        requires told { IsTold event.now.what }
        requires proper { IsTrue (is_proper event.now) }
        ensures steps { Steps holds result event.now now (seen_of V.told V.disk V.faults V.refusals self.old) (seen_of V.told V.disk V.faults V.refusals self.new) outs.old outs.new }
        ensures shown { IfOk result IsShown }
        ensures vol { Keeps V.disk V.faults V.refusals self.old.vol self.new.vol }
        ensures shares { IfOk result (λ reply. SharesStep self.old.since reply event.now now (seen_of V.told V.disk V.faults V.refusals self.old) (seen_of V.told V.disk V.faults V.refusals self.new)) }
        ensures log { MatchResult result (λ reply. LogGoes (batch_of event.now now (seen_of V.told V.disk V.faults V.refusals self.old)) self.old self.new) (λ fault. IsLeftIfToldWorn fault self.new) }
        ensures since { self.new.since ≡ since_by now self.old.since self.new.waiting }
    {
        if let Some(count) = self.stopped {
            return Err(PlaceFault::Stopped(count));
        }
        let kept = self.slot.incarnation();
        if event.incarnation != kept {
            return Err(PlaceFault::Gone(kept));
        }
        let count = outs.len();
        let overdue = is_overdue(self.since, &event.what, now);
        match self.answer(event, now, outs) {
            Ok(said) => {
                let urgent = is_urgent(said.firm, overdue);
                self.confirm(urgent, is_refused(&said.reply), count, outs)?;
                Ok(said.reply)
            }
            Err(left) => Err(PlaceFault::NoMemory(left)),
        }
    }

    /// It is committed with all that waits if that may not wait on.
    fn deliver_one(
        &mut self,
        now: Moment,
        listening: &Listening,
        outs: &mut Outs,
    ) -> Result<Option<Delivery>, PlaceFault>
        ensures delivers { Delivers holds result now listening.now (seen_of V.told V.disk V.faults V.refusals self.old) (seen_of V.told V.disk V.faults V.refusals self.new) outs.old outs.new }
        ensures vol { Keeps V.disk V.faults V.refusals self.old.vol self.new.vol }
        ensures shares { IfOk result (λ made. IfSome made (λ delivery. SharesDelivery delivery now (seen_of V.told V.disk V.faults V.refusals self.old) (seen_of V.told V.disk V.faults V.refusals self.new))) }
        ensures log { MatchResult result (λ made. IfSome made (λ delivery. LogGoes (batch_with now delivery (seen_of V.told V.disk V.faults V.refusals self.old) (seen_of V.told V.disk V.faults V.refusals self.new)) self.old self.new)) (λ fault. IsLeftIfToldWorn fault self.new) }
        ensures since { self.new.since ≡ since_by now self.old.since self.new.waiting }
    {
        if let Some(count) = self.stopped {
            return Err(PlaceFault::Stopped(count));
        }
        let count = outs.len();
        match self.deliver(now, listening, outs) {
            Ok(None) => Ok(None),
            Ok(Some(delivery)) => {
                self.confirm(Some(false), false, count, outs)?;
                Ok(Some(delivery))
            }
            Err(left) => Err(PlaceFault::NoMemory(left)),
        }
    }

    fn flush(&mut self) -> Result<(), PlaceFault>
        ensures flushes { Flushes holds result (seen_of V.told V.disk V.faults V.refusals self.old) (seen_of V.told V.disk V.faults V.refusals self.new) }
        ensures log { MatchResult result (λ done. LogGoes self.old.waiting self.old self.new) (λ fault. IsLeftIfToldWorn fault self.new) }
        ensures vol { Keeps V.disk V.faults V.refusals self.old.vol self.new.vol }
        ensures tail { KeepsTail self.old self.new }
    {
        if let Some(count) = self.stopped {
            return Err(PlaceFault::Stopped(count));
        }
        match self.bring() {
            Ok(()) => Ok(()),
            Err(CommitFault::NoMemory) => Err(PlaceFault::NoMemory(Left::Nothing)),
            Err(CommitFault::Worn) => Err(PlaceFault::Worn { refused: false }),
            Err(CommitFault::Fault) => {
                tell_stopped(&self.slot, &self.vol);
                Err(PlaceFault::StoreFault)
            }
        }
    }

    fn law_kept(&self) {
        // what holds of the place is what the proof takes from this field
        let _ = &self.slot;
    }

    fn into_vol(self) -> V {
        let VolumePlace {
            alloc: _,
            slot: _,
            store: _,
            vol,
            tail: _,
            made: _,
            since: _,
            stored: _,
            stopped: _,
            fixed: _,
        } = self;
        vol
    }

    ghost holds_one = { only_held };

    ghost holds_lasting = { all_lasts };

    ghost opens_read = { opens_read V.told V.disk };

    ghost refuses_read = { refuses_read V.told V.disk };

    ghost bases = { λ place b. (λ is. is, λ is. is) };

    ghost leaves = { λ place t image. (λ is. is, λ is. is) };

    ghost earlier = { earlier_left V.told V.disk V.clocked };

    ghost stands = { λ place. (refl, refl, refl) };

    ghost keeps_later = { keeps_later V.disk V.faults V.refusals };

    ghost keeps_none = { keeps_none V.disk V.faults V.refusals };

    ghost keeps_more = { keeps_more V.disk V.faults V.refusals };
}
