//! A place for one stream, in memory or on a volume.

ghost use Rattle.std.specs.Prelude.{◌≡◌, ◌≤◌, ◌<◌, ◌^◌, ◌⊎◌, ◌↔◌, ℕ, Option, None, length, option_map, slice_get, IfOk, IfErr, IfSome, IsTrue, IsUtf8};
ghost use Rattle.std.specs.Option.{option_copied};
ghost use Rattle.js_base.specs.Causes.{Rose};
ghost use Rattle.js_model.specs.declared.stream.State.{State};
ghost use Rattle.js_model.specs.Events.{kept_incarnation};
ghost use Rattle.js_model.specs.Lasting.{lasting};
ghost use Rattle.js_model.specs.Proper.{is_proper, is_proper_what};
ghost use Rattle.js_model.specs.Ready.{some_ready};
ghost use Rattle.place_engine.specs.declared.faults.OpenFault.{OpenFault};
ghost use Rattle.place_engine.specs.Delivering.{Delivers};
ghost use Rattle.place_engine.specs.Flushing.{Flushes};
ghost use Rattle.place_engine.specs.Opening.{HasNoRoom, IsOpened, IsUnopened};
ghost use Rattle.place_engine.specs.Places.{IsTold, messages_in, name_in, subjects_in};
ghost use Rattle.place_engine.specs.Preparing.{Prepares, RoomCauses};
ghost use Rattle.place_engine.specs.Pushes.{push_of, pushes_in};
ghost use Rattle.place_engine.specs.Shown.{IsShown};
ghost use Rattle.place_engine.specs.Stepping.{Image, IsKept, Seen, Steps};
ghost use Rattle.timers.specs.Bounds.{IsTimerBound};
ghost use Rattle.timers.specs.Timers.{timers};

use crate::faults::{OpenFault, PlaceFault};
use crate::push::Push;
use js_base::{Blob, Moment, Outs};
use js_model::{Delivery, Event, Listening, Reply, What};
use std::alloc::Global;

/// A place, vacant or with a stream, and its volume.
pub trait Place {
    /// The volume that the place was opened on.
    type Vol;

    /// The place as contracts see it.
    ghost seen: { Self → Seen };

    /// Which state an image of the volume holds.
    ghost holds: { Image → State → Type 0 };

    /// The volume as it is now.
    ghost vol: { Self → Self.Vol };

    /// What a call may make of the volume.
    ghost keeps_vol: { Self.Vol → Self.Vol → Type 0 };

    /// What reads of a volume give.
    ghost reads: { Self.Vol → Image → Type 0 };

    /// What a crash at some moment of a volume, from one on, may have left of it.
    ghost left: { Self.Vol → ℕ → Image → Type 0 };

    /// The moment of a volume: how many of its calls it has answered, if that is told.
    ghost clock: { Self.Vol → ℕ };

    /// How often a volume failed.
    ghost faults: { Self.Vol → ℕ };

    /// Why an event may find no room.
    ghost room_causes: { RoomCauses Self.Vol };

    /// Which states a volume may hold whose place is stopped at a count of faults, or not stopped.
    ghost base: { Option ℕ → Self.Vol → State → Type 0 };

    /// To which states a place may be opened on a volume.
    ghost opens: { Self.Vol → State → Type 0 };

    /// Why a place may not be opened on a volume.
    ghost refuses: { Self.Vol → OpenFault → Type 0 };

    /// Opens the place of a volume, and makes the room that it may need. An `Err` gives the volume back; `Fault` comes only if its count of faults rose, and
    /// `NoRoom` only if its count of refusals rose, or if it holds more than a log can begin with.
    fn open(alloc: Global, volume: Self::Vol) -> Result<Self, (OpenFault, Self::Vol)>
        ensures opened { IfOk result (λ place. IsOpened holds reads left clock opens volume (seen place)) }
        ensures vol { IfOk result (λ place. keeps_vol volume (vol place)) }
        ensures refused { IfErr result (λ stop. refuses volume stop.0) }
        ensures cause { IfErr result (λ stop. stop.0 ≡ OpenFault.Fault → Rose (faults volume) (faults stop.1)) }
        ensures no_room { IfErr result (λ stop. stop.0 ≡ OpenFault.NoRoom → HasNoRoom room_causes opens volume stop.1) }
        ensures unopened { IfErr result (λ stop. IsUnopened holds reads left clock opens volume stop.1) }
        ensures given_back { IfErr result (λ stop. keeps_vol volume stop.1) };

    /// The incarnation of the stream, or the one that the next stream will have. At 2^62 no stream can be made any more.
    fn incarnation(&self) -> u64
        ensures value { result ≡ kept_incarnation (seen self.now).place.state }
        ensures bound { result ≤ 2 ^ 62 };

    /// The name of the stream, if there is one. The incarnation of a stream is below 2^62.
    fn name(&self) -> Option<&Blob>
        ensures value { option_copied result ≡ name_in (seen self.now).place.state }
        ensures utf8 { IfSome result (λ name. IsUtf8 name.now) }
        ensures number { IfSome result (λ _. kept_incarnation (seen self.now).place.state < 2 ^ 62) };

    /// The subjects of its configuration, none if there is no stream.
    fn subjects(&self) -> &[Blob]
        ensures value { result.now ≡ subjects_in (seen self.now).place.state };

    /// How many messages the stream holds, none if there is no stream.
    fn messages(&self) -> u64
        ensures value { result ≡ messages_in (seen self.now).place.state }
        ensures bound { result < 2 ^ 32 };

    /// The volume's count of faults as it stopped the place, if it did.
    fn stopped(&self) -> Option<u64>
        ensures value { result ≡ (seen self.now).place.stopped };

    /// The push consumer at a place in the order of their names, counted from 0. `None` exactly from their number on. There are at most 256.
    fn push(&self, at: usize) -> Option<Push<'_>>
        ensures value { result ≡ option_map push_of (slice_get (pushes_in (seen self.now).place.state) at) }
        ensures few { length (pushes_in (seen self.now).place.state) ≤ 256 };

    /// Whether a consumer is ready at a moment, one to whom something can be delivered, if somebody listens to these push consumers. It changes
    /// nothing.
    fn ready(&self, now: Moment, listening: &Listening) -> bool
        ensures value { result ≡ some_ready (seen self.now).place.state now listening.now };

    /// A moment before which no timer fires, of those that fire later than the place's own moment: until then no pull ends, no heartbeat comes, no delivery is
    /// due again or given up, no message is too old, and no message id is forgotten. `None` comes only if there are no such timers. So if all that is due has
    /// been done, as a tick leaves a place, time alone changes until then nothing of what it holds but its own moment.
    fn next_timer(&self) -> Option<Moment>
        ensures bound { IsTimerBound (timers (seen self.now).place.state) result };

    /// Makes room for what an event may need, if there is some: a step looks only at the room that is there, and refuses what it has none for. Nothing else
    /// changes. The volume is called only for what may make the place hold more: a publish, the making of a stream or of a consumer, and another configuration.
    /// What each fault leaves of the place is said at [`PlaceFault`]: of `NoMemory` only `Left::Nothing` comes, and neither `Gone` nor
    /// `Worn` does.
    fn prepare(&mut self, what: &What) -> Result<(), PlaceFault>
        requires proper { IsTrue (is_proper_what what.now) }
        ensures prepares { Prepares holds room_causes.outgrows_log result what.now (seen self.old) (seen self.new) }
        ensures vol { keeps_vol (vol self.old) (vol self.new) };

    /// Makes an event at a moment, answers it, and adds what it sends to the outputs. What each fault leaves of the place and of the outputs is
    /// said at [`PlaceFault`]; if a place is stopped, the event's incarnation is not looked at.
    ///
    /// If a publish has a header with a bad number, the header's name is UTF-8. What a reply shows can be printed: the configurations of informations
    /// are valid, and the text of a refusal, the subject of a message and the names of consumers are UTF-8; and the numbers of a stream's information
    /// are so small that those of 32 streams can be added.
    fn step(&mut self, event: &Event, now: Moment, outs: &mut Outs) -> Result<Reply, PlaceFault>
        requires told { IsTold event.now.what }
        requires proper { IsTrue (is_proper event.now) }
        ensures steps { Steps holds result event.now now (seen self.old) (seen self.new) outs.old outs.new }
        ensures shown { IfOk result IsShown }
        ensures vol { keeps_vol (vol self.old) (vol self.new) };

    /// Makes one delivery at a moment to a consumer that is ready, if somebody listens to these push consumers, and adds what it sends to the
    /// outputs. Which of them it is, and which of its messages, is left open as far as the machine leaves it so. `None` comes exactly if none is
    /// ready, and changes nothing. What each fault leaves of the place and of the outputs is said at [`PlaceFault`]; `Gone` does not come.
    fn deliver_one(
        &mut self,
        now: Moment,
        listening: &Listening,
        outs: &mut Outs,
    ) -> Result<Option<Delivery>, PlaceFault>
        ensures delivers { Delivers holds result now listening.now (seen self.old) (seen self.new) outs.old outs.new }
        ensures vol { keeps_vol (vol self.old) (vol self.new) };

    /// Brings all that was made to the volume. What each fault leaves of the place is said at [`PlaceFault`]: of `NoMemory` only `Left::Nothing` comes, and
    /// `Gone` does not come. After `Worn` all is as it was.
    fn flush(&mut self) -> Result<(), PlaceFault>
        ensures flushes { Flushes holds result (seen self.old) (seen self.new) }
        ensures vol { keeps_vol (vol self.old) (vol self.new) };

    /// What holds between any two calls: also that what reads give is a base, unless the place is stopped. It does nothing.
    fn law_kept(&self)
        ensures kept { IsKept holds (seen self.now) }
        ensures reads { (seen self.now).place.stopped ≡ None → (image : Image) → reads (vol self.now) image → (b : State) × holds image b × (seen self.now).is_base b };

    /// Ends the place, and gives its volume back. What waits is not on it.
    fn into_vol(self) -> Self::Vol
        ensures value { result ≡ vol self };

    /// An image holds one state, or none.
    ghost holds_one: { (image : Image) → (a b : State) → holds image a → holds image b → a ≡ b };

    /// A state that an image holds outlives a crash as a whole.
    ghost holds_lasting: { (image : Image) (b : State) → holds image b → lasting b ≡ b };

    /// A place opens to what reads give.
    ghost opens_read: { (v : Self.Vol) (state : State) (image : Image) → opens v state → reads v image → holds image state };

    /// A volume of which reads give something that an image may hold is refused only if it fails, if memory runs out, or if there is no room.
    ghost refuses_read: { (v : Self.Vol) (fault : OpenFault) (image : Image) (b : State) → reads v image → holds image b → refuses v fault → (fault ≡ OpenFault.Fault) ⊎ ((fault ≡ OpenFault.NoMemory) ⊎ (fault ≡ OpenFault.NoRoom)) };

    /// The bases of a place are those of its volume.
    ghost bases: { (place : Self) (b : State) → (seen place).is_base b ↔ base (seen place).place.stopped (vol place) b };

    /// What a crash may have left of a place it may have left of its volume.
    ghost leaves: { (place : Self) (t : ℕ) (image : Image) → (seen place).left_since t image ↔ left (vol place) t image };

    /// What was left since a moment was left since each earlier one.
    ghost earlier: { (v : Self.Vol) (t u : ℕ) (image : Image) → t ≤ u → left v u image → left v t image };

    /// Where the volume of a place stands is told of the place.
    ghost stands: { (place : Self) → ((seen place).place.volume.moment ≡ clock (vol place)) × ((seen place).place.volume.faults ≡ faults (vol place)) × ((seen place).place.volume.refusals ≡ room_causes.refusals (vol place)) };

    /// Neither the moment of a volume nor one of its counts of faults and of refusals falls.
    ghost keeps_later: { (a b : Self.Vol) → keeps_vol a b → (clock a ≤ clock b) × (faults a ≤ faults b) × (room_causes.refusals a ≤ room_causes.refusals b) };

    /// A call may leave the volume as it is.
    ghost keeps_none: { (v : Self.Vol) → keeps_vol v v };

    /// What several calls make of the volume, one may make of it.
    ghost keeps_more: { (a b c : Self.Vol) → keeps_vol a b → keeps_vol b c → keeps_vol a c };
}
